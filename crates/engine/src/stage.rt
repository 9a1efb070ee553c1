// A set of a search, and the verdict with it.
ghost use Rattle.std.specs.Prelude.{◌≡◌, ◌==◌, cond};
ghost use Rattle.uses.specs.declared.verdict.Verdict.TheVariants.{Open, Unsafe};

use making::FALSE;
use uses::verdict::Verdict;

#[derive(Clone, Copy)]
pub(crate) struct Stage {
    pub(crate) set: u16,
    pub(crate) verdict: Verdict,
}

// The verdict at a depth where the set is new, from the number of its part in Init.
pub(crate) fn verdict_at(depth: u16, met: u16) -> Verdict
    ensures { result ≡ cond (met == 0) Open (Unsafe depth) }
{
    if met == FALSE {
        Verdict::Open
    } else {
        Verdict::Unsafe(depth)
    }
}
