ghost use Rattle.std.specs.Prelude.{◌≡◌, ◌≤◌, length};
ghost use Rattle.circuit.specs.declared.TheConstants.{MOST_INPUTS};

use circuit::MOST_REGISTERS;
use copy_list::{Blank, CopyList};

// The numbers of a function and of its negation.
#[derive(Clone, Copy, Default)]
pub struct Polarities {
    pub function: u16,
    pub negation: u16,
}

// By hand, since a clause says which it is, and of a default the library says less.
impl Blank for Polarities {
    ghost use Rattle.making.specs.Making.{unpaired};

    ghost blank = { unpaired };

    fn blank() -> Polarities {
        Polarities::default()
    }
}

// The numbers that an advance works with: of the registers' copies, the next values, the claims and Init.
#[derive(Clone, Copy)]
pub struct Parts {
    // How many inputs.
    pub m: u8,
    pub copies: CopyList<Polarities, MOST_REGISTERS>,
    pub nexts: CopyList<Polarities, MOST_REGISTERS>,
    pub assumed: u16,
    pub property: u16,
    pub init: u16,
    ghost inputs: { m ≤ MOST_INPUTS },
    ghost led: { length nexts.items ≡ length copies.items },
}

impl Parts {
    // How many registers.
    pub fn registers(&self) -> u8
        ensures counts { result ≡ length self.now.copies.items }
        ensures few { result ≤ MOST_REGISTERS }
    {
        self.copies.len() as u8
    }
}

// What a load leaves: besides, the numbers of the first set and of its part in Init.
#[derive(Clone, Copy)]
pub struct Built {
    pub parts: Parts,
    pub set: u16,
    pub met: u16,
}
