// Circuits and claims with the truth of each, and the file and the texts that describe them.
use std::alloc::{AllocError, Global};

// Gates by their literals, as the circuit file has them: 2 * line, and 1 more where the line is negated.
#[derive(Drop)]
pub(crate) struct Circuit {
    pub(crate) registers: u16,
    pub(crate) inputs: u16,
    pub(crate) gates: Vec<[u16; 2]>,
}

// How many registers, inputs and gates a circuit has.
#[derive(Clone, Copy)]
pub(crate) struct Sizes {
    pub(crate) registers: u16,
    pub(crate) inputs: u16,
    pub(crate) gates: u16,
}

// Two literals, and whether their conjunction is negated.
#[derive(Clone, Copy)]
pub(crate) struct Term {
    pub(crate) literals: [u16; 2],
    pub(crate) negated: bool,
}

// The disjunction of two terms.
#[derive(Clone, Copy)]
pub(crate) struct Claim {
    pub(crate) terms: [Term; 2],
}

// The truth of each line at a state and an input, a bit each: there are at most 17 lines.
#[derive(Clone, Copy)]
pub(crate) struct Lines {
    bits: u32,
}

impl Lines {
    pub(crate) fn line(self, line: u16) -> bool {
        self.bits.wrapping_shr(u32::from(line)) % 2 == 1
    }

    fn literal(self, literal: u16) -> bool {
        self.line(literal / 2) != (literal % 2 == 1)
    }

    fn both(self, literals: [u16; 2]) -> bool {
        self.literal(literals[0]) && self.literal(literals[1])
    }

    pub(crate) fn claim(self, claim: &Claim) -> bool {
        claim
            .terms
            .iter()
            .any(|term| self.both(term.literals) != term.negated)
    }
}

impl Sizes {
    // The line of the first gate, which is the first past line 0, the registers and the inputs.
    pub(crate) fn first_gate(self) -> u16 {
        self.registers.wrapping_add(self.inputs).wrapping_add(1)
    }
}

impl Circuit {
    pub(crate) fn sizes(&self) -> Sizes {
        Sizes {
            registers: self.registers,
            inputs: self.inputs,
            gates: self.count(),
        }
    }

    fn first_gate(&self) -> u16 {
        self.sizes().first_gate()
    }

    // The line of Init.
    pub(crate) fn last_line(&self) -> u16 {
        self.first_next().wrapping_add(self.registers)
    }

    fn count(&self) -> u16 {
        u16::try_from(self.gates.len()).unwrap_or(0)
    }

    // The line of the next value of register 0, which those of the others and Init follow.
    fn first_next(&self) -> u16 {
        self.count()
            .wrapping_add(self.first_gate())
            .wrapping_sub(self.registers)
            .wrapping_sub(1)
    }

    pub(crate) fn lines(&self, state: u16, input: u16) -> Lines {
        let place = u32::from(self.registers).wrapping_add(1);
        let bits = u32::from(state).wrapping_shl(1) | u32::from(input).wrapping_shl(place);
        let mut lines = Lines { bits };
        let mut line = u32::from(self.first_gate());
        for gate in self.gates.iter() {
            lines.bits |= u32::from(lines.both(*gate)).wrapping_shl(line);
            line = line.wrapping_add(1);
        }
        lines
    }

    pub(crate) fn next(&self, lines: Lines) -> u16 {
        let mut next = 0u16;
        for i in (0..self.registers).rev() {
            let held = lines.line(self.first_next().wrapping_add(i));
            next = next.wrapping_mul(2) | u16::from(held);
        }
        next
    }

    pub(crate) fn is_initial(&self, state: u16) -> bool {
        self.lines(state, 0).line(self.last_line())
    }

    pub(crate) fn file(&self, heap: Global) -> Result<Vec<u8>, AllocError> {
        let mut file = Vec::new(heap);
        for size in [self.registers, self.inputs, self.count()] {
            file.extend_from_slice(&size.to_le_bytes())?;
        }
        for side in 0..2 {
            for gate in self.gates.iter() {
                file.extend_from_slice(&gate[side].to_le_bytes())?;
            }
        }
        Ok(file)
    }

    // The letter and the number of a line, all of which have one digit.
    fn name(&self, line: u16) -> [u8; 2] {
        let (letter, number) = if line <= self.registers {
            (b's', line.wrapping_sub(1))
        } else if line < self.first_gate() {
            (b'v', line.wrapping_sub(self.registers).wrapping_sub(1))
        } else {
            (b'g', line.wrapping_sub(self.first_gate()))
        };
        [letter, b'0' + (number % 10) as u8]
    }

    fn write_literal(&self, literal: u16, text: &mut Vec<u8>) -> Result<(), AllocError> {
        if literal < 2 {
            text.push(b'0' + literal as u8)?;
            return Ok(());
        }
        if literal % 2 == 1 {
            text.push(b'!')?;
        }
        text.extend_from_slice(&self.name(literal / 2))
    }

    fn write_term(&self, term: Term, text: &mut Vec<u8>) -> Result<(), AllocError> {
        if term.negated {
            text.extend_from_slice(b"!(")?;
        }
        self.write_literal(term.literals[0], text)?;
        text.extend_from_slice(b" &")?;
        self.write_literal(term.literals[1], text)?;
        if term.negated {
            text.push(b')')?;
        }
        Ok(())
    }

    pub(crate) fn text(&self, claim: &Claim, heap: Global) -> Result<Vec<u8>, AllocError> {
        let mut text = Vec::new(heap);
        self.write_term(claim.terms[0], &mut text)?;
        text.push(b'|')?;
        self.write_term(claim.terms[1], &mut text)?;
        Ok(text)
    }
}
