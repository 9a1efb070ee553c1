use super::fault::Fault;
use super::trace::Trace;
use circuit::sizes::Sizes;

// What is said of a job. No `Result`: its text is its `Display`, and a refusal is a report as well.
#[derive(Clone, Copy)]
pub enum Report {
    // After so many advances; so many states are inside.
    Safe {
        sizes: Sizes,
        depth: u16,
        inside: u16,
    },
    Unsafe {
        sizes: Sizes,
        trace: Trace,
    },
    Refused(Fault),
}
