ghost use Rattle.std.specs.Prelude.{◌≡◌, ◌^◌};
ghost use Rattle.making.specs.Loads.{registers_of};

use super::stage::Stage;
use circuit::MOST_REGISTERS;
use copy_list::CopyList;
use making::parts::Parts;

// A search settles after at most as many advances as there are states.
pub const MOST_ADVANCES: usize = 1 << MOST_REGISTERS;

// The most steps of a trace, which has one for each set.
pub const MOST_STEPS: usize = MOST_ADVANCES + 1;

// A search: the numbers of its functions, its last set with the verdict, and the sets before that, from B_0 on.
#[derive(Clone, Copy)]
pub struct Search {
    pub(crate) parts: Parts,
    pub(crate) earlier: CopyList<u16, MOST_ADVANCES>,
    pub(crate) last: Stage,
}

impl Search {
    // How many states there are.
    pub(crate) fn states(&self) -> u16
        ensures { result ≡ 2 ^ registers_of self.now.parts }
    {
        1 << self.parts.registers()
    }

    // How many inputs there are.
    pub(crate) fn inputs(&self) -> u16
        ensures { result ≡ 2 ^ self.now.parts.m }
    {
        1 << self.parts.m
    }
}
