// Any use of a session: requests made in order of a new session over any store, with the replies beside them.
#![tactic(auto)]

ghost use Rattle.store.specs.Meaning.{Shown};
ghost use Rattle.uses.specs.Calls.{trace};
ghost use Rattle.engine.specs.Keeping.{world, Next};
ghost use Rattle.requests.specs.Calling.{SameArray};
ghost use Rattle.requests.specs.Progress.{Answers, AllAnswered};
ghost use Rattle.requests.specs.Served.{Served};

pub mod exchange;
pub mod reply;
pub mod request;

use engine::session::Session;
use exchange::Exchange;
use reply::Reply;
use request::Request;
use store::Store;
use uses::fault::Fault;

/// Makes every request in order of a new session over the store, writes each reply, and hands the store back.
pub fn serve<S: Store>(store: S, exchanges: &mut [Exchange<'_>]) -> S
    ensures { Served (S.Store.shows store) exchanges.old exchanges.new (S.Store.shows result) }
{
    let mut session = Session::new(store);
    answer_all(&mut session, exchanges);
    session.into_store()
}

fn answer_all<S: Store>(session: &mut Session<S>, exchanges: &mut [Exchange<'_>])
    ensures { AllAnswered
        (world S.Store.shows session.old)
        exchanges.old
        exchanges.new
        (world S.Store.shows session.new) }
{
    for exchange in exchanges.iter_mut() {
        exchange.reply = answer(session, &mut exchange.request);
    }
}

// Makes one request. The arrays of a trace are filled in place.
fn answer<S: Store>(session: &mut Session<S>, request: &mut Request<'_>) -> Reply
    ensures { Answers
        (world S.Store.shows session.old)
        request.old
        request.new
        result
        (world S.Store.shows session.new) }
{
    match request {
        Request::Load(source) => Reply::Load(session.load(*source)),
        Request::Advance => Reply::Advance(session.advance()),
        Request::Verdict => Reply::Verdict(session.verdict()),
        Request::Trace { states, inputs } => Reply::Trace(trace(session, states, inputs)),
        Request::Inside(state) => Reply::Inside(session.inside(*state)),
    }
}

// A function of its own, since a `&mut` that an enum holds is not lent on where the enum is taken apart.
fn trace<S: Store>(
    session: &mut Session<S>,
    states: &mut &mut [u16],
    inputs: &mut &mut [u16],
) -> Result<(), Fault>
    ensures next { Next (world S.Store.shows session.old)
        (trace states.old.now inputs.old.now states.new.now inputs.new.now result)
        (world S.Store.shows session.new) }
    ensures same_arrays { SameArray states.old states.new × SameArray inputs.old inputs.new }
{
    session.trace(*states, *inputs)
}
