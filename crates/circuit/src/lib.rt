// Circuit files: read, or refused with the first fault.
#![tactic(auto)]

ghost use Rattle.std.specs.Prelude.{◌≡◌, ◌↔◌, ℕ, ◌+◌, ◌*◌, IfOk, IsOk, Ok, Err, MatchResult};
ghost use Rattle.circuit.specs.Files.{number_at, sizes_at};
ghost use Rattle.circuit.specs.Laws.{FileOf, Acceptable};
ghost use Rattle.circuit.specs.Netlists.{Netlist};
ghost use Rattle.circuit.specs.Reading.{netlist, answered};
ghost use Rattle.circuit.specs.Rules.{Sound, Determined, reading, Tested};
ghost use Rattle.circuit.specs.Steps.{Sized};

pub mod circuit;
pub mod gate;
pub mod literal;
mod netlist;
pub mod refusal;
pub mod sizes;
pub mod sort;

use circuit::Circuit;
use netlist::Netlist;
use refusal::Refusal;
use sizes::Sizes;
use sort::Sort;

pub const MOST_REGISTERS: usize = 8;

pub const MOST_INPUTS: usize = 8;

pub const MOST_GATES: usize = 1024;

// False, the registers, the inputs and the gates.
pub const MOST_LINES: usize = 1 + MOST_REGISTERS + MOST_INPUTS + MOST_GATES;

// Number i of a file: two bytes, low byte first, and 0 past the end.
pub fn number_at(file: &[u8], i: u16) -> u16
    ensures { result ≡ number_at file.now i }
{
    let at = 2 * usize::from(i);
    let low = file.get(at).copied().unwrap_or(0);
    let high = file.get(at + 1).copied().unwrap_or(0);
    u16::from_le_bytes([low, high])
}

// The sizes at the head of a file.
pub fn sizes_at(file: &[u8]) -> Sizes
    ensures { result ≡ sizes_at file.now }
{
    Sizes {
        registers: number_at(file, 0),
        inputs: number_at(file, 1),
        gates: number_at(file, 2),
    }
}

// How many bytes a file of so many gates has: 6 for the sizes, and 4 for each gate.
pub fn file_length(gates: u16) -> usize
    ensures { result ≡ 6 + 4 * gates }
{
    6 + 4 * usize::from(gates)
}

fn read_sizes(file: &[u8]) -> Result<Sizes, Refusal>
    ensures { MatchResult result (Sized file.now) (λ e. (width : ℕ) → reading width file.now ≡ Err e) }
{
    if file.len() < 6 {
        return Err(Refusal::Length(file.len()));
    }
    let sizes = sizes_at(file);
    if !(1..=MOST_REGISTERS as u16).contains(&sizes.registers) {
        return Err(Refusal::Size(Sort::Register));
    }
    if sizes.inputs > MOST_INPUTS as u16 {
        return Err(Refusal::Size(Sort::Input));
    }
    if !(sizes.registers + 1..=MOST_GATES as u16).contains(&sizes.gates) {
        return Err(Refusal::Size(Sort::Gate));
    }
    Ok(sizes)
}

/// Reads a circuit file for a store of `width` variables, or refuses it with the first fault.
pub fn read(file: &[u8], width: u8) -> Result<Circuit, Refusal>
    ensures written { (c : Netlist) → (answered result ≡ Ok c) ↔ FileOf width file.now c }
    ensures accepted { IsOk result ↔ Acceptable width file.now }
    ensures reads { answered result ≡ reading width file.now }
    ensures sound { IfOk result (λ c. Sound (netlist c)) }
    ensures determined { IfOk result (λ c. Determined (netlist c)) }
{
    let netlist = read_netlist(file, width)?;
    Ok(Circuit { netlist })
}

fn read_netlist(file: &[u8], width: u8) -> Result<Netlist, Refusal>
    ensures reads { result ≡ reading width file.now }
    ensures sound { IfOk result Sound }
{
    let sizes = read_sizes(file)?;
    if file.len() != file_length(sizes.gates) {
        return Err(Refusal::Length(file.len()));
    }
    let needed = (2 * sizes.registers + sizes.inputs) as u8;
    if width < needed {
        return Err(Refusal::Width(needed));
    }
    let netlist = Netlist::read(file, sizes);
    netlist.check()?;
    Ok(netlist)
}

// The tests that the checks are stated by tell what they should.
pub fn tests_tell()
    ensures { (c : Netlist) → Tested c }
{}
