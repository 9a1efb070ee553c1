// The nodes of reduced ordered diagrams.
#![tactic(auto)]

ghost use Rattle.std.specs.Prelude.{◌≡◌};
ghost use Rattle.nodes.specs.Graph.{child};
ghost use Rattle.nodes.specs.Hash.{mixed};
ghost use Rattle.nodes.specs.Identity.{alike_mixed};

use records::entry::Entry;

// Decides by its variable: the function numbered `low` where that is false, and the one numbered `high` where it is true.
// By numbers, and no boxes: nothing here is on a heap, and a node is shared.
#[derive(Clone, Copy, PartialEq, Eq, Default, Debug)]
pub struct Node {
    pub variable: u8,
    pub low: u16,
    pub high: u16,
}

// 2 to the 64 by the golden ratio, whose products spread numbers that are close over their top bits.
pub const GOLDEN: u64 = 0x9e37_79b9_7f4a_7c15;

impl Entry for Node {
    ghost hashed = { λ x. mixed x };

    ghost agrees = { alike_mixed };

    // By the fields side by side, so that nodes with neighbouring children are spread.
    fn hash(&self) -> u16 {
        let children = u64::from(self.low) + 65536 * u64::from(self.high);
        let fields = children + 65536 * 65536 * u64::from(self.variable);
        (fields.wrapping_mul(GOLDEN) >> 48) as u16
    }
}

impl Node {
    // The number of the function where the variable is t.
    pub fn child(self, t: bool) -> u16
        ensures { result ≡ child self t }
    {
        if t { self.high } else { self.low }
    }
}
