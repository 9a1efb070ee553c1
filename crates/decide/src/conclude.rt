// What a settled search has come to.
ghost use Rattle.std.specs.Prelude.{◌≡◌, ◌≤◌};
ghost use Rattle.circuit.specs.declared.TheConstants.{MOST_REGISTERS};
ghost use Rattle.circuit.specs.Files.{registers};
ghost use Rattle.engine.specs.Keeping.{world};
ghost use Rattle.decide.specs.Searches.{CountsInside, HandsOut, Concludes};

use super::report::Report;
use super::trace::Trace;
use circuit::sizes_at;
use engine::search::MOST_STEPS;
use engine::session::Session;
use engine::settled::{Depth, Settled};
use store::Store;
use uses::fault::Fault;

// How many of the states are inside. A bound on the registers is asked for here and in `engine` and `making`: they come
// of a file, of a circuit or of a list, and a type for them would be made anew in each place.
fn count_inside<S: Store>(session: &mut Session<S>, registers: u16) -> Result<u16, Fault>
    requires { registers ≤ MOST_REGISTERS }
    ensures same { world S.Store.shows session.new ≡ world S.Store.shows session.old }
    ensures counts { CountsInside (world S.Store.shows session.old) registers result }
{
    let mut count = 0;
    // A `for`: of a sum of results the library says nothing, and a `try_fold` needs a clause on its closure, that the
    // sum fits, and then `try_fold-requires-clause-callable` stayed open.
    for q in 0..1 << registers {
        count += u16::from(session.inside(q)?);
    }
    Ok(count)
}

fn read_trace<S: Store>(session: &mut Session<S>, depth: Depth) -> Result<Trace, Fault>
    ensures same { world S.Store.shows session.new ≡ world S.Store.shows session.old }
    ensures hands_out { HandsOut (world S.Store.shows session.old) depth.advances result }
{
    // Two arrays, by the rule of the call: a session fills two that are lent.
    let mut states = [0; MOST_STEPS];
    let mut inputs = [0; MOST_STEPS];
    session.trace(&mut states, &mut inputs)?;
    let count = usize::from(depth.advances) + 1;
    Ok(Trace::of(&states[..count], &inputs[..count]))
}

// The report on a job with this circuit file, whose search has settled.
pub(crate) fn conclude<S: Store>(
    session: &mut Session<S>,
    file: &[u8],
    settled: Settled,
) -> Result<Report, Fault>
    requires { registers file.now ≤ MOST_REGISTERS }
    ensures same { world S.Store.shows session.new ≡ world S.Store.shows session.old }
    ensures concludes { Concludes (world S.Store.shows session.old) file.now settled result }
{
    let sizes = sizes_at(file);
    match settled {
        Settled::Safe(depth) => {
            let inside = count_inside(session, sizes.registers)?;
            Ok(Report::Safe {
                sizes,
                depth: depth.advances,
                inside,
            })
        }
        Settled::Unsafe(depth) => {
            let trace = read_trace(session, depth)?;
            Ok(Report::Unsafe { sizes, trace })
        }
    }
}
