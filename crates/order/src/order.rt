// The order of a layer's variables.
ghost use Rattle.std.specs.Prelude.{◌≡◌, ℕ, ◌<◌, ◌≤◌, true, false, [], length, nat_lt, MatchOption};
ghost use Rattle.store.specs.Fun.{bit};
ghost use Rattle.order.specs.Listing.{times, is_order, place};
ghost use Rattle.order.specs.Renaming.{placed, task_below};

use arrayvec::ArrayVec;
use store::MOST_VARIABLES;
use store::bits::{bit, with_bit};
use store::task::Task;

const MOST: usize = MOST_VARIABLES as usize;

// The places hold each number below their count once.
#[derive(Drop)]
pub(super) struct Order {
    places: ArrayVec<u8, MOST>,
    ghost once: { is_order (length places.items) places.items ≡ true },
}

// The numbers of the list, as the bits of a word; numbers past bit 31 have none.
fn seen(p: &[u8]) -> u32
    ensures { (j : ℕ) → j < 32 → bit j result ≡ nat_lt 0 (times j p.now) }
{
    p.iter().fold(0, |word, x| with_bit(word, *x, true))
}

// Whether the list holds each number below n once, and no other: a list of n entries in which none is missing does.
pub(super) fn is_order(n: u8, p: &[u8]) -> bool
    requires { n ≤ MOST }
    ensures { result ≡ is_order n p.now }
{
    p.len() == usize::from(n) && seen(p) == (1 << n) - 1
}

// The order of no variables. A struct with a ghost field derives no Default.
impl Default for Order {
    ghost is_default = { λ o. o.places.items ≡ [] };

    fn default() -> Self {
        Order {
            places: ArrayVec::new(),
        }
    }
}

impl Order {
    // The list as an order of n variables.
    pub(super) fn of(n: u8, p: &[u8]) -> Option<Order>
        requires { n ≤ MOST }
        ensures { MatchOption result (is_order n p.now ≡ false) (λ o. (is_order n p.now ≡ true) × (o.places.items ≡ p.now)) }
    {
        if !is_order(n, p) {
            return None;
        }
        let places = ArrayVec::try_from(p).ok()?;
        Some(Order { places })
    }

    // The variable below for variable i, and i itself past the places.
    pub(super) fn variable_below(&self, i: u8) -> u8
        ensures { result ≡ place self.now.places.items i }
    {
        self.places.get(usize::from(i)).copied().unwrap_or(i)
    }

    // The task below: its variable is the one below.
    pub(super) fn task_below(&self, task: Task) -> Task
        ensures { result ≡ task_below (place self.now.places.items) task }
    {
        match task {
            Task::Variable(i) => Task::Variable(self.variable_below(i)),
            Task::Cofactor(a, i, t) => Task::Cofactor(a, self.variable_below(i), t),
            Task::Not(_) | Task::Both(_, _, _) => task,
        }
    }

    // The valuation below for w. A place is below 32: the remainder spares the test that it is.
    pub(super) fn valuation_below(&self, w: u32) -> u32
        ensures { result ≡ placed (place self.now.places.items) (length self.now.places.items) w }
    {
        (0..MOST_VARIABLES)
            .zip(self.places.as_slice())
            .fold(w, |v, (i, place)| with_bit(v, *place % 32, bit(w, i)))
    }
}
