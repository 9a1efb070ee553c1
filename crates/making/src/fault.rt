// Why a call of the builder is refused, with its number, its part and its place.
ghost use Rattle.std.specs.Prelude.{◌≡◌};
ghost use Rattle.making.specs.Ends.{placing};
ghost use Rattle.making.specs.Faults.{notice_of};

use description::notice::Notice;
use description::part::Part;
use store::refusal::Refusal;

/// Why a making call of the builder was refused: what the store answered, with the part and the place of a call that found no room.
// No `Refusal` in one case, since a refusal for room has a part and a place, and the others have none.
#[derive(Clone, Copy, PartialEq, Eq, Debug)]
pub enum Fault<P = Part> {
    /// The store has no room for the call's result, with so many units free.
    Room { part: P, place: u16, free: u32 },
    /// A function number is not held.
    Number,
    /// A variable is out of range.
    Variable,
}

impl<P: Copy> Fault<P> {
    // A refusal of the store, with the part and the place of its call.
    pub(crate) fn at(refusal: Refusal, part: P, place: u16) -> Fault<P>
        ensures { result ≡ placing part place refusal }
    {
        match refusal {
            Refusal::Room(free) => Fault::Room { part, place, free },
            Refusal::Number => Fault::Number,
            Refusal::Variable => Fault::Variable,
        }
    }
}

impl Fault {
    /// The number, the part and the place of the refusal.
    // The numbers are written out, since `as` takes no enum that holds values.
    pub fn notice(self) -> Notice
        ensures { result ≡ notice_of self }
    {
        match self {
            Fault::Room { part, place, .. } => Notice {
                number: 10,
                part,
                place: usize::from(place),
            },
            Fault::Number => Notice::of_call(16),
            Fault::Variable => Notice::of_call(17),
        }
    }
}
