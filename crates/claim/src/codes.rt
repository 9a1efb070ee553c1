// The codes of one claim, operands first.
ghost use Rattle.std.specs.Prelude.{◌≡◌, ◌≤◌, length};
ghost use Rattle.claim.specs.declared.TheConstants.{LONGEST};
ghost use Rattle.claim.specs.Grammar.{Tree, post};

use crate::LONGEST;
use crate::code::Code;
use arrayvec::ArrayVec;

#[derive(Drop)]
pub struct Codes {
    pub(crate) list: ArrayVec<Code, LONGEST>,
    // For the callers: a lent list does not tell its capacity, and a clause of `codes` would say the same.
    ghost within: { length list.items ≤ LONGEST },
    ghost made: { ∥ ((t : Tree) × (list.items ≡ post t)) ∥₁ },
}

impl Codes {
    ghost use Rattle.claim.specs.Result.{used};

    pub fn codes(&self) -> &[Code]
        ensures { result.now ≡ used self.now }
    {
        self.list.as_slice()
    }
}
