// The functions that a making call asks for, and when a call is refused whatever the room.
ghost use Rattle.std.specs.Prelude.{◌≡◌, ◌+◌, ◌^◌, true, nat_lt};
ghost use Rattle.store.specs.Tasks.{names, ranges, allowed};

use super::refusal::Refusal;

#[derive(Clone, Copy, PartialEq, Eq, Debug)]
pub enum Op {
    And,
    Or,
}

// Each with the numbers of its operands.
#[derive(Clone, Copy, PartialEq, Eq, Debug)]
pub enum Task {
    Variable(u8),
    Not(u16),
    Both(Op, u16, u16),
    // A number with a variable fixed to a truth.
    Cofactor(u16, u8, bool),
}

impl Task {
    // What a store of so many variables that has made so many functions refuses: NUMBER is tested first, then VARIABLE.
    pub fn check(self, made: usize, variables: u8) -> Result<(), Refusal>
        ensures { result ≡ allowed (names (λ a. nat_lt a (made + 2)) self) (ranges variables self) }
    {
        match self {
            Task::Variable(i) => within(i < variables),
            Task::Not(a) => held(a, made),
            Task::Both(_, a, b) => held(a, made).and(held(b, made)),
            Task::Cofactor(a, i, _) => held(a, made).and(within(i < variables)),
        }
    }
}

// The same for the question of number a at the valuation w.
pub fn check_value(a: u16, w: u32, made: usize, variables: u8) -> Result<(), Refusal>
    ensures { result ≡ allowed (nat_lt a (made + 2)) (nat_lt w (2 ^ variables)) }
{
    held(a, made).and(within(is_valuation(w, variables)))
}

// Whether w is a valuation of so many variables.
fn is_valuation(w: u32, variables: u8) -> bool
    ensures { result ≡ nat_lt w (2 ^ variables) }
{
    variables >= 32 || w < 1 << variables
}

// Refuses a number that is not held: the constants have the first two, and what was made has the next ones.
// From a place to its number each make goes by itself: a public function would have to ask that the number fits.
fn held(a: u16, made: usize) -> Result<(), Refusal>
    ensures { result ≡ allowed (nat_lt a (made + 2)) true }
{
    if a < 2 || usize::from(a) - 2 < made {
        Ok(())
    } else {
        Err(Refusal::Number)
    }
}

// Refuses what is out of range.
fn within(holds: bool) -> Result<(), Refusal>
    ensures { result ≡ allowed true holds }
{
    if holds {
        Ok(())
    } else {
        Err(Refusal::Variable)
    }
}
