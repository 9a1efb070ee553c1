ghost use Rattle.std.specs.Prelude.{◌≡◌};
ghost use Rattle.job.specs.Faults.{notice_of};

use description::notice::Notice;
use description::part::Part;

// Why bytes are no job.
#[derive(Clone, Copy, PartialEq, Eq, Debug)]
pub enum Fault {
    // There are this many, too few or not as many as their numbers say.
    Length(usize),
}

impl Fault {
    pub fn notice(self) -> Notice
        ensures { result ≡ notice_of self }
    {
        let Fault::Length(bytes) = self;
        Notice {
            number: 2,
            part: Part::Job,
            place: bytes,
        }
    }
}
