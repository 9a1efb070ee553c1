// Reports as text.
ghost use Rattle.std.specs.Prelude.{Some};
ghost use Rattle.decide.specs.Texts.{steps_text, text};

use super::report::Report;
use super::trace::Trace;
use std::fmt;

// A line for each step: its number, the state and the input.
impl fmt::Display for Trace {
    ghost output = { λ t. Some (steps_text t) };

    fn fmt<W: fmt::Write>(&self, f: &mut fmt::Formatter<W>) -> fmt::Result {
        for (t, step) in self.steps.as_slice().iter().enumerate() {
            let state = step.state;
            let input = step.input;
            writeln!(f, "{t} {state} {input}")?;
        }
        Ok(())
    }
}

impl fmt::Display for Report {
    ghost output = { λ r. Some (text r) };

    fn fmt<W: fmt::Write>(&self, f: &mut fmt::Formatter<W>) -> fmt::Result {
        match self {
            Report::Safe {
                sizes,
                depth,
                inside,
            } => writeln!(
                f,
                "{sizes}\nverdict safe\ndepth {depth}\ninside {inside}\naccepted 1"
            ),
            Report::Unsafe { sizes, trace } => {
                let depth = trace.depth();
                writeln!(
                    f,
                    "{sizes}\nverdict unsafe\ndepth {depth}\n{trace}accepted 0"
                )
            }
            Report::Refused(fault) => {
                let notice = fault.notice();
                writeln!(f, "{notice}\naccepted 0")
            }
        }
    }
}
