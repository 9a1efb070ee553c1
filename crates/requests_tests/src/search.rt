// The search of the rules over explicit sets of states, a bit for each state.
use crate::circuits::{Circuit, Claim};
use uses::verdict::Verdict;

// A circuit with its claims.
#[derive(Drop)]
pub(crate) struct Problem {
    pub(crate) circuit: Circuit,
    pub(crate) assumption: Claim,
    pub(crate) property: Claim,
}

// A set of states, by bits.
pub(crate) fn holds(set: u32, state: u16) -> bool {
    set.wrapping_shr(u32::from(state)) % 2 == 1
}

impl Problem {
    pub(crate) fn states(&self) -> u16 {
        1u16.wrapping_shl(u32::from(self.circuit.registers))
    }

    fn inputs(&self) -> u16 {
        1u16.wrapping_shl(u32::from(self.circuit.inputs))
    }

    // Whether the assumption holds at a step, and the step leads into the set, or breaks the property where there is
    // no set.
    fn leads(&self, state: u16, input: u16, set: Option<u32>) -> bool {
        let lines = self.circuit.lines(state, input);
        lines.claim(&self.assumption)
            && match set {
                None => !lines.claim(&self.property),
                Some(set) => holds(set, self.circuit.next(lines)),
            }
    }

    // The smallest input with which a state leads there.
    fn input(&self, state: u16, set: Option<u32>) -> Option<u16> {
        (0..self.inputs()).find(|&input| self.leads(state, input, set))
    }

    // The states that lead there, a bit each.
    fn leading(&self, set: Option<u32>) -> u32 {
        let mut states = 0;
        for state in 0..self.states() {
            let leads = self.input(state, set).is_some();
            states |= u32::from(leads).wrapping_shl(u32::from(state));
        }
        states
    }

    pub(crate) fn first(&self) -> u32 {
        self.leading(None)
    }

    pub(crate) fn grown(&self, set: u32) -> u32 {
        set | self.leading(Some(set))
    }

    // The smallest initial state in a set.
    fn start(&self, set: u32) -> Option<u16> {
        (0..self.states()).find(|&state| holds(set, state) && self.circuit.is_initial(state))
    }

    // What the sets come to, all of them from the first on.
    pub(crate) fn verdict(&self, sets: &[u32]) -> Verdict {
        let Some((&last, earlier)) = sets.split_last() else {
            return Verdict::Empty;
        };
        if self.start(last).is_some() {
            Verdict::Unsafe(u16::try_from(earlier.len()).unwrap_or(u16::MAX))
        } else if earlier.last() == Some(&last) {
            Verdict::Safe
        } else {
            Verdict::Open
        }
    }

    // Writes the trace of an unsafe verdict over the starts of two arrays.
    pub(crate) fn trace(&self, sets: &[u32], states: &mut [u16], inputs: &mut [u16]) {
        let Some((&last, earlier)) = sets.split_last() else {
            return;
        };
        let mut state = self.start(last).unwrap_or(0);
        let depth = earlier.len();
        for t in 0..depth {
            let set = earlier.get(depth - 1 - t).copied();
            let input = self.input(state, set).unwrap_or(0);
            put(states, t, state);
            put(inputs, t, input);
            state = self.circuit.next(self.circuit.lines(state, input));
        }
        put(states, depth, state);
        put(inputs, depth, self.input(state, None).unwrap_or(0));
    }
}

fn put(numbers: &mut [u16], place: usize, number: u16) {
    if let Some(at) = numbers.get_mut(place) {
        *at = number;
    }
}
