// The variables of a circuit's registers, of their copies and of its inputs.
ghost use Rattle.std.specs.Prelude.{◌≡◌, ◌*◌, ◌≤◌, length, IfOk, OnOk};
ghost use Rattle.circuit.specs.Netlists.{gate_line};
ghost use Rattle.circuit.specs.Reading.{netlist};
ghost use Rattle.making.specs.Models.{alone};
ghost use Rattle.making.specs.Promises.{MakesVariables};

use crate::lines::Numbers;
use arrayvec::ArrayVec;
use circuit::MOST_REGISTERS;
use circuit::circuit::Circuit;
use store::Store;
use store::refusal::Refusal;

// The variables of the first register and of its copy: register i has 2i, and its copy 2i + 1.
pub(crate) const FIRST_REGISTER: u8 = 0;

pub(crate) const FIRST_COPY: u8 = 1;

// The variable of the first input: before it, each register and its copy have one.
pub(crate) fn first_input(registers: u8) -> u8
    requires { registers ≤ MOST_REGISTERS }
    ensures { result ≡ 2 * registers }
{
    2 * registers
}

// Writes the numbers of the registers and of the inputs after that of line 0, and answers those of the copies.
pub(crate) fn make_variables<S: Store>(
    store: &mut S,
    circuit: &Circuit,
    numbers: &mut Numbers,
) -> Result<ArrayVec<u16, MOST_REGISTERS>, Refusal>
    requires { length numbers.old.items ≡ 1 }
    ensures lines { OnOk result (length numbers.new.items ≡ gate_line (netlist circuit.now) 0) }
    ensures copies { IfOk result (λ cs. length cs.items ≡ (netlist circuit.now).registers) }
    ensures makes { MakesVariables (S.Store.shows store.old) (alone (netlist circuit.now)) numbers.old.items result numbers.new.items (S.Store.shows store.new) }
{
    let first = first_input(circuit.registers());
    let mut copies = ArrayVec::new();
    for i in 0..circuit.registers() {
        let register = store.variable(2 * i)?;
        numbers.push(register);
        let copy = store.variable(2 * i + 1)?;
        copies.push(copy);
    }
    for x in first..first + circuit.inputs() {
        let input = store.variable(x)?;
        numbers.push(input);
    }
    Ok(copies)
}
