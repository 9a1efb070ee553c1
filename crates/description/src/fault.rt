// Why a circuit file or one of its claims is refused.
ghost use Rattle.std.specs.Prelude.{◌≡◌};
ghost use Rattle.description.specs.Faults.{notice_of};

use crate::notice::Notice;
use crate::part::Part;
use circuit::refusal::Refusal;
use claim::fault::Fault as Misreading;

#[derive(Clone, Copy, PartialEq, Eq, Debug)]
pub enum Fault {
    Circuit(Refusal),
    Assumption(Misreading),
    Property(Misreading),
}

impl Fault {
    // A method, here and for the faults above, and no `From`: that would say the same by a ghost member, in more lines.
    pub fn notice(self) -> Notice
        ensures { result ≡ notice_of self }
    {
        let (number, part, place) = match self {
            Fault::Circuit(refusal) => (refusal.number(), Part::Circuit, refusal.place()),
            Fault::Assumption(fault) => (fault.number(), Part::Assumption, fault.place()),
            Fault::Property(fault) => (fault.number(), Part::Property, fault.place()),
        };
        Notice {
            number,
            part,
            place,
        }
    }
}
