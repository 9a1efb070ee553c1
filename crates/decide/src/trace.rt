ghost use Rattle.std.specs.Prelude.{◌≡◌, ◌-◌, ◌<◌, ◌≤◌, length, map};

use copy_list::CopyList;
use engine::search::MOST_STEPS;
use engine::step::Step;

// A run by its steps, from step 0 on.
#[derive(Clone, Copy)]
pub struct Trace {
    pub steps: CopyList<Step, MOST_STEPS>,
    ghost begun: { 0 < length steps.items },
}

impl Trace {
    // The run with these states and inputs.
    pub(crate) fn of(states: &[u16], inputs: &[u16]) -> Trace
        requires begun { 0 < length states.now }
        requires short { length states.now ≤ MOST_STEPS }
        requires as_many { length inputs.now ≡ length states.now }
        ensures states { map (λ s. s.state) result.steps.items ≡ states.now }
        ensures inputs { map (λ s. s.input) result.steps.items ≡ inputs.now }
    {
        let mut steps = CopyList::new();
        for (&state, &input) in states.iter().zip(inputs) {
            steps.push(Step { state, input }).unwrap();
        }
        Trace { steps }
    }

    // The number of the last step.
    pub fn depth(&self) -> u16
        ensures { result ≡ length self.now.steps.items - 1 }
    {
        self.steps.len() as u16 - 1
    }
}
