use super::reply::Reply;
use super::request::Request;

/// A request, and the reply, which the call writes over whatever stands there.
#[derive(Drop)]
pub struct Exchange<'a> {
    pub request: Request<'a>,
    pub reply: Reply,
}
