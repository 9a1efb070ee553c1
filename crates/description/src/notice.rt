ghost use Rattle.std.specs.Prelude.{◌≡◌, Some};
ghost use Rattle.description.specs.declared.part.Part.TheVariants.{Call};
ghost use Rattle.description.specs.Notices.{notice_text};

use crate::part::Part;
use std::fmt;

// What is told of a refusal: its number, the part that it lies in, and the place there.
#[derive(Clone, Copy, PartialEq, Eq, Debug)]
pub struct Notice {
    pub number: u8,
    pub part: Part,
    pub place: usize,
}

impl Notice {
    /// The notice of a call that is refused as a whole, at no place in it.
    pub fn of_call(number: u8) -> Notice
        ensures { result ≡ record { number = number; part = Call; place = 0 } }
    {
        Notice {
            number,
            part: Part::Call,
            place: 0,
        }
    }
}

impl fmt::Display for Notice {
    ghost output = { λ n. Some (notice_text n) };

    fn fmt<W: fmt::Write>(&self, f: &mut fmt::Formatter<W>) -> fmt::Result {
        let number = self.number;
        let part = self.part.number();
        let place = self.place;
        write!(f, "refused {number} part {part} place {place}")
    }
}
