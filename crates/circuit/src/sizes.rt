ghost use Rattle.std.specs.Prelude.{Some};
ghost use Rattle.circuit.specs.Texts.{sizes_text};

use super::sort::Sort;
use std::fmt;

// How many registers, inputs and gates there are.
#[derive(Clone, Copy, PartialEq, Eq, Debug)]
pub struct Sizes {
    pub registers: u16,
    pub inputs: u16,
    pub gates: u16,
}

impl Sizes {
    ghost use Rattle.std.specs.Prelude.{◌≡◌};
    ghost use Rattle.circuit.specs.Netlists.{limit};

    // How many there are of a sort.
    pub fn of(self, sort: Sort) -> u16
        ensures { result ≡ limit self sort }
    {
        match sort {
            Sort::Register => self.registers,
            Sort::Input => self.inputs,
            Sort::Gate => self.gates,
        }
    }
}

impl fmt::Display for Sizes {
    ghost output = { λ z. Some (sizes_text z) };

    fn fmt<W: fmt::Write>(&self, f: &mut fmt::Formatter<W>) -> fmt::Result {
        let Sizes {
            registers,
            inputs,
            gates,
        } = self;
        write!(f, "registers {registers} inputs {inputs} gates {gates}")
    }
}
