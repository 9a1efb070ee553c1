// What is wrong with a text, and where.
ghost use Rattle.std.specs.Prelude.{◌≡◌};
ghost use Rattle.claim.specs.Faults.{number_of, place_of};

// Each holds the place of a byte.
#[derive(Clone, Copy, PartialEq, Eq, Debug)]
pub enum Fault {
    // The text is no claim.
    Claim(usize),
    // There is no such register, input or gate.
    Name(usize),
    // More than 16 `!` and `(` are open.
    Deep(usize),
}

impl Fault {
    // Methods, and no `as`: the cases hold places.
    pub fn number(self) -> u8
        ensures { result ≡ number_of self }
    {
        match self {
            Fault::Claim(_) => 7,
            Fault::Name(_) => 8,
            Fault::Deep(_) => 9,
        }
    }

    pub fn place(self) -> usize
        ensures { result ≡ place_of self }
    {
        match self {
            Fault::Claim(place) | Fault::Name(place) | Fault::Deep(place) => place,
        }
    }
}
