ghost use Rattle.std.specs.Prelude.{◌≡◌};
ghost use Rattle.description.specs.Faults.{part_number};

/// What a fault lies in, with the number that a notice tells.
#[derive(Clone, Copy, PartialEq, Eq, Debug)]
pub enum Part {
    Job = 0,
    Circuit = 1,
    Assumption = 2,
    Property = 3,
    Sets = 4,
    Call = 5,
}

impl Part {
    pub fn number(self) -> u8
        ensures { result ≡ part_number self }
    {
        self as u8
    }
}
