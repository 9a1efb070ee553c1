// The state and the input of a step.
ghost use Rattle.std.specs.Prelude.{◌≡◌, ◌*◌, ◌^◌, ◌<◌, ◌≤◌};
ghost use Rattle.circuit.specs.declared.TheConstants.{MOST_REGISTERS};
ghost use Rattle.runs.specs.Functions.{spread};

use copy_list::Blank;

#[derive(Clone, Copy, Default, PartialEq, Eq, Debug)]
pub struct Step {
    pub state: u16,
    pub input: u16,
}

// By hand, since a clause says which it is, and of a default the library says less.
impl Blank for Step {
    ghost blank = { record { state = 0; input = 0 } };

    fn blank() -> Step {
        Step::default()
    }
}

impl Step {
    // A step for what the state alone decides: any input would do.
    pub(crate) fn at(state: u16) -> Step
        ensures { result ≡ record { state = state; input = 0 } }
    {
        Step { state, input: 0 }
    }

    // The valuation of n registers and the inputs. By recursion, as `spread` is defined: a loop would need an invariant that says the same.
    pub(crate) fn valuation(self, n: u8) -> u32
        requires { n ≤ MOST_REGISTERS }
        ensures is { result ≡ spread n self.state self.input }
        ensures below { result < 65536 * 4 ^ n }
    {
        if n == 0 {
            return u32::from(self.input);
        }
        let rest = Step {
            state: self.state / 2,
            ..self
        };
        4 * rest.valuation(n - 1) + u32::from(self.state % 2)
    }
}
