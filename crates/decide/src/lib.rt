// From the bytes of a job to the report on it, by a search over any store.
#![tactic(auto)]

ghost use Rattle.store.specs.Meaning.{Grown};
ghost use Rattle.decide.specs.Reports.{Reports, Only, Full, Accepted, Broken};
ghost use Rattle.decide.specs.Searches.{reported};
ghost use Rattle.engine.specs.Keeping.{world, Keeps};
ghost use Rattle.uses.specs.Calls.{empty};

mod conclude;
pub mod fault;
pub mod report;
pub mod text;
pub mod trace;

use conclude::conclude;
use engine::session::Session;
use fault::Fault;
use job::split;
use report::Report;
use store::Store;

/// What is to be said of a job, whatever its bytes, by a search in the store; and the store, which is handed back
/// with what it then holds.
pub fn report_on<S: Store>(job: &[u8], store: S) -> (Report, S)
    ensures right { Reports (S.Store.shows store) job.now result.0 (S.Store.shows result.1) }
    ensures only { Only (S.Store.shows store) job.now result.0 (S.Store.shows result.1) }
    ensures full { Full (S.Store.shows store) job.now result.0 (S.Store.shows result.1) }
    ensures grown { Grown (S.Store.shows store) (S.Store.shows result.1) }
    ensures accepted { Accepted (S.Store.shows store) job.now result.0 }
    ensures broken { Broken (S.Store.shows store) job.now result.0 }
{
    let mut session = Session::new(store);
    let report = run(job, &mut session).unwrap_or_else(Report::Refused);
    (report, session.into_store())
}

// What a session that is empty comes to.
fn run<S: Store>(job: &[u8], session: &mut Session<S>) -> Result<Report, Fault>
    requires { Keeps empty (world S.Store.shows session.now) }
    ensures { Reports
        (world S.Store.shows session.old).store
        job.now
        (reported result)
        (world S.Store.shows session.new).store }
{
    let source = split(job)?;
    session.load(source)?;
    let settled = session.settle()?;
    Ok(conclude(session, source.circuit, settled)?)
}
