// Jobs: the frame that holds a circuit file and two texts.
#![tactic(auto)]

ghost use Rattle.std.specs.Prelude.{◌≡◌, ◌↔◌, Ok};
ghost use Rattle.job.specs.Frames.{Parts, Framed, frame, framed};

pub mod fault;
mod input;
#[cfg(test)]
mod tests;

use circuit::{MOST_GATES, file_length, number_at, sizes_at};
use description::source::Source;
use fault::Fault;
pub use input::read;
use store::MOST_VARIABLES;

// How many variables the store of a program has.
pub const VARIABLES: u8 = MOST_VARIABLES;

// The bytes of the longest job that can be accepted: the lengths, the circuit file with the most gates, and two longest
// texts. Written out, since a constant calls no function.
pub const LONGEST: usize = 4 + (6 + 4 * MOST_GATES) + 2 * claim::LONGEST;

/// How many bytes a program reads: one more than the longest job that can be accepted has.
pub const MOST_BYTES: usize = LONGEST + 1;

/// Cuts a job into the circuit file, the assumption and the property, or refuses its length.
pub fn split(job: &[u8]) -> Result<Source, Fault>
    ensures parts { (p : Parts) → (framed result ≡ Ok p) ↔ Framed job.now p }
    ensures answer { framed result ≡ frame job.now }
{
    let wrong = Fault::Length(job.len());
    let (lengths, parts) = job.split_at_checked(4).ok_or(wrong)?;
    let circuit_length = file_length(sizes_at(parts).gates);
    let (circuit, texts) = parts.split_at_checked(circuit_length).ok_or(wrong)?;
    let assumption_length = usize::from(number_at(lengths, 0));
    let (assumption, property) = texts.split_at_checked(assumption_length).ok_or(wrong)?;
    if property.len() != usize::from(number_at(lengths, 1)) {
        return Err(wrong);
    }
    Ok(Source {
        circuit,
        assumption,
        property,
    })
}
