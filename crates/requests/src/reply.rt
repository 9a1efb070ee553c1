use uses::fault::Fault;
use uses::verdict::Verdict;

/// What a session answers to a request of the same name.
#[derive(Clone, Copy, PartialEq, Eq, Debug)]
pub enum Reply {
    Load(Result<Verdict, Fault>),
    Advance(Result<Verdict, Fault>),
    Verdict(Verdict),
    Trace(Result<(), Fault>),
    Inside(Result<bool, Fault>),
}
