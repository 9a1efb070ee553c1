ghost use Rattle.std.specs.Prelude.{◌≡◌, length};
ghost use Rattle.circuit.specs.Netlists.{sizes, name_line};
ghost use Rattle.circuit.specs.Rules.{Sound};

use super::gate::Gate;
use super::netlist::Netlist;
use super::sizes::Sizes;
use super::sort::Sort;

// A netlist that passed every check of its file.
#[derive(Clone, Copy)]
pub struct Circuit {
    pub(crate) netlist: Netlist,
    ghost sound: { ∥ Sound netlist ∥₁ },
}

impl Circuit {
    ghost use Rattle.circuit.specs.Reading.{netlist};

    pub fn sizes(&self) -> Sizes
        ensures { result ≡ sizes (netlist self.now) }
    {
        Sizes {
            registers: u16::from(self.netlist.registers),
            inputs: u16::from(self.netlist.inputs),
            gates: self.gate_count(),
        }
    }

    pub fn registers(&self) -> u8
        ensures { result ≡ (netlist self.now).registers }
    {
        self.netlist.registers
    }

    pub fn inputs(&self) -> u8
        ensures { result ≡ (netlist self.now).inputs }
    {
        self.netlist.inputs
    }

    pub fn gate_count(&self) -> u16
        ensures { result ≡ length (netlist self.now).gates }
    {
        self.netlist.gates.len() as u16
    }

    // The line of register i, of input i or of gate i, of which there need be none.
    pub fn line(&self, sort: Sort, i: u16) -> usize
        ensures { result ≡ name_line (netlist self.now) sort i }
    {
        self.netlist.line(sort, i)
    }

    pub fn gates(&self) -> &[Gate]
        ensures { result.now ≡ (netlist self.now).gates }
    {
        self.netlist.gates.as_slice()
    }
}
