// Circuit files and texts that look random, with what the rules say of each: a problem to search, or a refusal.
ghost use Rattle.std.specs.Prelude.{◌<◌};

use crate::circuits::{Circuit, Claim, Sizes, Term};
use crate::random::Random;
use crate::search::Problem;
use description::notice::Notice;
use description::part::Part;
use std::alloc::{AllocError, Global};

#[derive(Drop)]
pub(crate) struct Job {
    pub(crate) file: Vec<u8>,
    pub(crate) assumption: Vec<u8>,
    pub(crate) property: Vec<u8>,
    // What the file and the texts described before they were spoiled.
    pub(crate) problem: Problem,
    pub(crate) refusal: Option<Notice>,
}

// A gate takes over one literal, or joins two.
fn gate(random: &mut Random, literals: u16) -> [u16; 2]
    requires { 0 < literals }
{
    let left = random.below(literals);
    if random.once_in(3) {
        [left, left]
    } else {
        [left, random.below(literals)]
    }
}

fn circuit(
    random: &mut Random,
    registers: u16,
    inputs: u16,
    heap: Global,
) -> Result<Circuit, AllocError>
    requires registers { registers < 8 }
    requires inputs { inputs < 8 }
{
    let mut gates = Vec::new(heap);
    for i in 0..registers + random.below(5) {
        gates.push(gate(random, 2 * (1 + registers + inputs + i)))?;
    }
    // Init touches no input.
    gates.push(gate(random, 2 * (1 + registers)))?;
    Ok(Circuit {
        registers,
        inputs,
        gates,
    })
}

fn term(random: &mut Random, literals: u16) -> Term
    requires { 0 < literals }
{
    Term {
        literals: gate(random, literals),
        negated: random.once_in(2),
    }
}

fn claim(random: &mut Random, literals: u16) -> Claim
    requires { 0 < literals }
{
    Claim {
        terms: [term(random, literals), term(random, literals)],
    }
}

impl Job {
    // A circuit that a store of 10 variables has room for, or one that wants 11 variables.
    pub(crate) fn new(random: &mut Random, heap: Global) -> Result<Job, AllocError> {
        let wide = random.once_in(16);
        let (registers, inputs) = if wide {
            (4, 3)
        } else {
            (1 + random.below(3), random.below(4))
        };
        let circuit = circuit(random, registers, inputs, heap)?;
        let literals = 2 + 2 * (circuit.last_line() % 32);
        let problem = Problem {
            circuit,
            assumption: claim(random, literals),
            property: claim(random, literals),
        };
        let mut job = Job {
            file: problem.circuit.file(heap)?,
            assumption: problem.circuit.text(&problem.assumption, heap)?,
            property: problem.circuit.text(&problem.property, heap)?,
            problem,
            refusal: None,
        };
        if wide {
            job.refuse(4, Part::Circuit, 11);
        }
        Ok(job)
    }

    // One that is spoiled in some of its parts.
    pub(crate) fn spoiled(random: &mut Random, heap: Global) -> Result<Job, AllocError> {
        let mut job = Job::new(random, heap)?;
        if random.once_in(3) {
            let (number, place) = spoil_text(random, &mut job.property)?;
            job.refuse(number, Part::Property, place);
        }
        if random.once_in(3) {
            let (number, place) = spoil_text(random, &mut job.assumption)?;
            job.refuse(number, Part::Assumption, place);
        }
        if random.once_in(3) {
            let sizes = job.problem.circuit.sizes();
            let (number, place) = spoil_file(random, sizes, &mut job.file);
            job.refuse(number, Part::Circuit, place);
        }
        Ok(job)
    }

    // Of two refusals the one whose part and number are lower is told.
    fn refuse(&mut self, number: u8, part: Part, place: usize) {
        if let Some(earlier) = self.refusal {
            if (earlier.part as u8, earlier.number) < (part as u8, number) {
                return;
            }
        }
        self.refusal = Some(Notice {
            number,
            part,
            place,
        });
    }
}

// Writes a file number at a place.
fn put(file: &mut [u8], place: usize, number: u16) {
    for (at, byte) in file.iter_mut().skip(place).zip(number.to_le_bytes()) {
        *at = byte;
    }
}

// Writes a line as the left literal of a gate.
fn put_left(file: &mut [u8], gate: u16, line: u16) {
    put(file, 6 + 2 * usize::from(gate), line.wrapping_mul(2));
}

// Spoils a file, and answers the number and the place of the refusal.
fn spoil_file(random: &mut Random, sizes: Sizes, file: &mut Vec<u8>) -> (u8, usize) {
    let length = file.len();
    match random.below(7) {
        0 => {
            file.truncate(length.wrapping_sub(1));
            (2, length.wrapping_sub(1))
        }
        1 => {
            file.truncate(5);
            (2, 5)
        }
        2 => {
            put(file, 0, 9 * random.below(2));
            (3, 0)
        }
        3 => {
            put(file, 2, 9);
            (3, 1)
        }
        4 => {
            put(file, 4, 1);
            (3, 2)
        }
        5 if sizes.inputs > 0 => spoil_init(random, sizes, file),
        _ => {
            let gate = random.below(2);
            put_left(file, gate, sizes.first_gate().wrapping_add(gate));
            (5, usize::from(gate))
        }
    }
}

// Lets Init touch input 0, by its own literal or through gate 0.
fn spoil_init(random: &mut Random, sizes: Sizes, file: &mut [u8]) -> (u8, usize) {
    let input = sizes.registers.wrapping_add(1);
    let init = sizes.gates.wrapping_sub(1);
    if random.once_in(2) {
        put_left(file, init, input);
    } else {
        put_left(file, 0, input);
        put_left(file, init, sizes.first_gate());
    }
    (6, usize::from(init))
}

// Spoils a text, and answers the number and the place of the refusal.
fn spoil_text(random: &mut Random, text: &mut Vec<u8>) -> Result<(u8, usize), AllocError> {
    let length = text.len();
    let (added, number, place) = match random.below(6) {
        0 => {
            text.clear();
            return Ok((7, 0));
        }
        1 => (" )", 7, 1),
        2 => ("&s9", 8, 1),
        3 => ("&g01", 7, 1),
        4 => ("|!!!!!!!!!!!!!!!!!s0", 9, 17),
        _ => ("\t", 7, 0),
    };
    text.extend_from_slice(added.as_bytes())?;
    Ok((number, length.wrapping_add(place)))
}
