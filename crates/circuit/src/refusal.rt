ghost use Rattle.std.specs.Prelude.{◌≡◌};
ghost use Rattle.circuit.specs.Reading.{number_of, place_of};

use super::sort::Sort;

// Why a circuit file is refused, with the place of the fault.
#[derive(Clone, Copy, PartialEq, Eq, Debug)]
pub enum Refusal {
    // The file has this many bytes, too few or not as many as its sizes say.
    Length(usize),
    // The first size out of range; its place is that in the file.
    Size(Sort),
    // The store has fewer variables than these.
    Width(u8),
    // A literal of this gate names its own line or a later one.
    Wire(u16),
    // This gate, Init, touches an input.
    Start(u16),
}

impl Refusal {
    // Methods, and no `as`: the cases hold places.
    pub fn number(self) -> u8
        ensures { result ≡ number_of self }
    {
        match self {
            Refusal::Length(_) => 2,
            Refusal::Size(_) => 3,
            Refusal::Width(_) => 4,
            Refusal::Wire(_) => 5,
            Refusal::Start(_) => 6,
        }
    }

    // What a refusal holds is its place.
    pub fn place(self) -> usize
        ensures { result ≡ place_of self }
    {
        match self {
            Refusal::Length(bytes) => bytes,
            Refusal::Size(sort) => sort as usize,
            Refusal::Width(variables) => usize::from(variables),
            Refusal::Wire(gate) | Refusal::Start(gate) => usize::from(gate),
        }
    }
}
