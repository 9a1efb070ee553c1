// A circuit's lines in a store.
ghost use Rattle.std.specs.Prelude.{◌≡◌, length, slice_index, slice_range};
ghost use Rattle.circuit.specs.Netlists.{lines, name_line, next_line, init_line};
ghost use Rattle.circuit.specs.Reading.{netlist};

use crate::FALSE;
use arrayvec::ArrayVec;
use circuit::circuit::Circuit;
use circuit::{MOST_LINES, MOST_REGISTERS};
use claim::code::Sort;

// The numbers of the first lines, in their order. They are a parameter beside the circuit while they grow, since `Lines` is whole.
pub(crate) type Numbers = ArrayVec<u16, MOST_LINES>;

// The numbers of all lines of a circuit, and of its registers' copies. The store stays a parameter beside it, since a step back has a store and no lines.
#[derive(Drop)]
pub(crate) struct Lines<'a> {
    pub(crate) circuit: &'a Circuit,
    pub(crate) numbers: Numbers,
    pub(crate) copies: ArrayVec<u16, MOST_REGISTERS>,
    ghost whole: { length numbers.items ≡ lines (netlist circuit.now) },
    ghost copied: { length copies.items ≡ (netlist circuit.now).registers },
}

impl Lines<'_> {
    // The number of what a claim names, or of false if there is no such line.
    pub(crate) fn named(&self, sort: Sort, i: u16) -> u16
        ensures { result ≡ slice_index self.now.numbers.items (name_line (netlist self.now.circuit.now) sort i) }
    {
        let line = self.circuit.line(sort, i);
        self.numbers.get(line).copied().unwrap_or(FALSE)
    }

    // The number of Init, the last line.
    pub(crate) fn init(&self) -> u16
        ensures { result ≡ slice_index self.now.numbers.items (init_line (netlist self.now.circuit.now)) }
    {
        self.numbers.last().copied().unwrap_or(FALSE)
    }

    // The numbers of the next values, on the lines before Init.
    pub(crate) fn nexts(&self) -> &[u16]
        ensures { result.now ≡ slice_range self.now.numbers.items (next_line (netlist self.now.circuit.now) 0) (init_line (netlist self.now.circuit.now)) }
    {
        let end = self.numbers.len() - 1;
        &self.numbers[end - usize::from(self.circuit.registers())..end]
    }
}
