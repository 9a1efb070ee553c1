// Reads a job from standard input and writes the report on it.
#![tactic(auto)]

ghost use Rattle.std.specs.Prelude.{◌≢◌, IfOk, IfErr, IfSome, OnOk};
ghost use Rattle.std.specs.IoError.{error_kind};
ghost use Rattle.job.specs.Inputs.{TakesAtMost};
ghost use Rattle.checker.specs.Program.{Based, Reported, Responded, Right};

use arrayvec::ArrayVec;
use decide::report::Report;
use decide::report_on;
use diagram::Diagram;
use job::{MOST_BYTES, VARIABLES};
use nodes::Node;
use std::io;
use std::io::{ErrorKind, Read, Write};

const RECORDS: usize = 8192;

// More than the longest text: 256 steps, each a line of three numbers of 16 bits.
const MOST_TEXT: usize = 8192;

fn main(rt: HostRuntime) -> io::Result<()> {
    respond(&mut rt.stdin(), &mut rt.stdout())
}

// Writes the report on what the reader has, in one piece.
fn respond<R: Read, W: Write>(reader: &mut R, writer: &mut W) -> io::Result<()>
    ensures answer { OnOk result
        (Responded (R.remaining reader.old) (W.contents writer.old) (W.contents writer.new)) }
    ensures most { TakesAtMost 5131 (R.remaining reader.old) (R.remaining reader.new) }
{
    let report = check(reader)?;
    let mut text: ArrayVec<u8, MOST_TEXT> = ArrayVec::new();
    write!(text, "{report}")?;
    writer.write_all(text.as_slice())
}

// The report on what the reader has.
fn check<R: Read>(reader: &mut R) -> io::Result<Report>
    ensures answer { IfOk result (λ report. IfSome (R.remaining reader.old) (λ input. Reported input report)) }
    ensures based { IfOk result (λ report. Based report) }
    ensures most { TakesAtMost 5131 (R.remaining reader.old) (R.remaining reader.new) }
    ensures retried { IfErr result (λ e. error_kind e ≢ ErrorKind.Interrupted) }
{
    let mut room = [0; MOST_BYTES];
    let job = job::read(reader, &mut room)?;
    Ok(search(job))
}

// The report on a job, by a search in an empty diagram store.
fn search(job: &[u8]) -> Report
    ensures { Right job.now result }
{
    let mut records = [Node::default(); RECORDS];
    let mut links = [0; RECORDS];
    let mut store = Diagram::new(VARIABLES, &mut records, &mut links);
    // Lent, since it is large.
    let (report, _) = report_on(job, &mut store);
    report
}
