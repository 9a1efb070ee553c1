// Netlists as their files say them, and the checks on what their lines are.
ghost use Rattle.std.specs.Prelude.{◌≡◌, ℕ, ◌+◌, ◌<◌, Ok, Err, length, MatchResult};
ghost use Rattle.circuit.specs.declared.refusal.Refusal.TheVariants.{Wire};
ghost use Rattle.circuit.specs.Files.{says};
ghost use Rattle.circuit.specs.Lines.{touching};
ghost use Rattle.circuit.specs.Netlists.{sizes, name_line, init_line};
ghost use Rattle.circuit.specs.Rules.{Wired, Sound, first_miswired, checking};
ghost use Rattle.circuit.specs.Steps.{InRange, Sized};

use super::gate::Gate;
use super::literal::Literal;
use super::refusal::Refusal;
use super::sizes::Sizes;
use super::sort::Sort;
use super::{MOST_GATES, MOST_LINES, number_at};
use arrayvec::ArrayVec;
use copy_list::CopyList;
use std::marker::Model;

// What a file says, before it is known to be a circuit.
#[derive(Clone, Copy)]
pub(crate) struct Netlist {
    pub(crate) registers: u8,
    pub(crate) inputs: u8,
    pub(crate) gates: CopyList<Gate, MOST_GATES>,
}

impl Model for Netlist {
    ghost use Rattle.circuit.specs.Netlists.{Netlist as Said};

    ghost Value = { Said };

    ghost view = { λ n. record { registers = n.registers; inputs = n.inputs; gates = n.gates.items } };

    ghost inverse = { λ n. record {
      registers = n.registers;
      inputs = n.inputs;
      gates = record { items = n.gates };
    } };
}

impl Netlist {
    // What a file of these sizes says: all left literals, then all right literals.
    pub(crate) fn read(file: &[u8], sizes: Sizes) -> Netlist
        requires { Sized file.now sizes }
        ensures { result ≡ says file.now }
    {
        let count = sizes.gates;
        let read = (0..count).map(|g| Gate {
            left: Literal::from(number_at(file, 3 + g)),
            right: Literal::from(number_at(file, 3 + count + g)),
        });
        let mut gates = ArrayVec::<Gate, MOST_GATES>::new();
        gates.extend(read).unwrap();
        Netlist {
            registers: sizes.registers as u8,
            inputs: sizes.inputs as u8,
            gates: CopyList::of(gates.as_slice()).unwrap(),
        }
    }

    // The checks on the lines.
    pub(crate) fn check(&self) -> Result<(), Refusal>
        requires { InRange (sizes self.now) }
        ensures { MatchResult result (λ _. (checking self.now ≡ Ok self.now) × Sound self.now) (λ e. checking self.now ≡ Err e) }
    {
        self.check_wires()?;
        if self.init_touches() {
            return Err(Refusal::Start(self.gates.len() as u16 - 1));
        }
        Ok(())
    }

    // The line of register i, of input i or of gate i. False is line 0.
    pub(crate) fn line(&self, sort: Sort, i: u16) -> usize
        ensures { result ≡ name_line self.now sort i }
    {
        let registers = usize::from(self.registers);
        let inputs = usize::from(self.inputs);
        let before = match sort {
            Sort::Register => 1,
            Sort::Input => 1 + registers,
            Sort::Gate => 1 + registers + inputs,
        };
        before + usize::from(i)
    }

    // Refuses the first gate that names its own line or a later one.
    fn check_wires(&self) -> Result<(), Refusal>
        ensures { MatchResult result (λ _. (g : ℕ) → g < length self.now.gates → Wired self.now g) (λ e. (first_miswired self.now < length self.now.gates) × (e ≡ Wire (first_miswired self.now))) }
    {
        for (g, gate) in self.gates.as_slice().iter().enumerate() {
            if !gate.names_below(self.line(Sort::Gate, g as u16)) {
                return Err(Refusal::Wire(g as u16));
            }
        }
        Ok(())
    }

    // Whether Init, the last gate, touches an input. Each line in turn is marked if it does.
    fn init_touches(&self) -> bool
        requires { InRange (sizes self.now) }
        ensures { result ≡ touching self.now (init_line self.now) }
    {
        let before = (0..self.line(Sort::Gate, 0)).map(|line| line > usize::from(self.registers));
        let mut marks = ArrayVec::<bool, MOST_LINES>::new();
        marks.extend(before).unwrap();
        // Pushes, since the mark of a gate is read from those before it.
        for gate in self.gates.as_slice() {
            let touches = gate.names_marked(marks.as_slice());
            marks.push(touches);
        }
        marks.as_slice().last().copied().unwrap_or(false)
    }
}
