// A store over any store: its variable i is variable p(i) below, and all else is as below, with variables so renamed.
#![tactic(auto)]

ghost use Rattle.std.specs.Prelude.{◌≡◌};
ghost use Rattle.order.specs.Listing.{is_order, order_of, verdict, Fits};
ghost use Rattle.order.specs.Renaming.{ordered};
ghost use Rattle.order.specs.Facts.{Reorders};
ghost use Rattle.order.specs.Below.{AnswersAsBelow, TellsAsBelow};
ghost use Rattle.store.specs.Calls.{Makes, TellsValue, TellsFigures};
ghost use Rattle.store.specs.Calls.{MakesVariable, MakesNot, MakesAnd, MakesOr, MakesCofactor};

mod order;

use order::{Order, is_order};
use store::Store;
use store::figures::Figures;
use store::refusal::{Refusal, Unfit};
use store::task::{Op, Task};

// The order is of all variables of the store, or of none: that one renames nothing.
#[derive(Drop)]
pub struct Layer<S: Store> {
    store: S,
    order: Order,
    ghost fits: { Fits (S.Store.shows store).vars order.places.items },
}

// Whether the list holds each variable of the store once.
pub fn check<S: Store>(store: &mut S, p: &[u8]) -> Result<(), Unfit>
    ensures same { S.Store.shows store.new ≡ S.Store.shows store.old }
    ensures told { result ≡ verdict (is_order (S.Store.shows store.old).vars p.now) }
{
    if is_order(store.figures().variables, p) {
        Ok(())
    } else {
        Err(Unfit::Order)
    }
}

impl<S: Store> Layer<S> {
    ghost use Rattle.order.specs.Layers.{below, order, above};

    /// The store under the order p; under the order of its variables, where p is no order.
    pub fn new(mut store: S, p: &[u8]) -> Layer<S>
        ensures below { below result ≡ S.Store.shows store }
        ensures order { order result ≡ order_of (S.Store.shows store).vars p.now }
        ensures reorders { Reorders (order result) (below result) (above result) }
        ensures shows { above result ≡ ordered p.now (S.Store.shows store) }
    {
        let n = store.figures().variables;
        let order = Order::of(n, p).unwrap_or_default();
        Layer { store, order }
    }
}

// The making calls: the trait says of them what holds for any store, so nothing of the order, and these say both.
impl<S: Store> Layer<S> {
    ghost use Rattle.order.specs.Layers.{below, order, above};

    /// Variable i, which is variable p(i) below.
    pub fn variable(&mut self, i: u8) -> Result<u16, Refusal>
        ensures told { MakesVariable (above self.old) i result (above self.new) }
        ensures below { MakesVariable (below self.old) (order self.old i) result (below self.new) }
        ensures order { order self.new ≡ order self.old }
        ensures reorders { Reorders (order self.new) (below self.new) (above self.new) }
    {
        self.answer(Task::Variable(i))
    }

    /// What is not a.
    pub fn not(&mut self, a: u16) -> Result<u16, Refusal>
        ensures told { MakesNot (above self.old) a result (above self.new) }
        ensures below { MakesNot (below self.old) a result (below self.new) }
        ensures order { order self.new ≡ order self.old }
        ensures reorders { Reorders (order self.new) (below self.new) (above self.new) }
    {
        self.answer(Task::Not(a))
    }

    /// Both a and b.
    pub fn and(&mut self, a: u16, b: u16) -> Result<u16, Refusal>
        ensures told { MakesAnd (above self.old) a b result (above self.new) }
        ensures below { MakesAnd (below self.old) a b result (below self.new) }
        ensures order { order self.new ≡ order self.old }
        ensures reorders { Reorders (order self.new) (below self.new) (above self.new) }
    {
        self.answer(Task::Both(Op::And, a, b))
    }

    /// Either of a and b.
    pub fn or(&mut self, a: u16, b: u16) -> Result<u16, Refusal>
        ensures told { MakesOr (above self.old) a b result (above self.new) }
        ensures below { MakesOr (below self.old) a b result (below self.new) }
        ensures order { order self.new ≡ order self.old }
        ensures reorders { Reorders (order self.new) (below self.new) (above self.new) }
    {
        self.answer(Task::Both(Op::Or, a, b))
    }

    /// The function a with variable i fixed to t, and below with variable p(i).
    pub fn cofactor(&mut self, a: u16, i: u8, t: bool) -> Result<u16, Refusal>
        ensures told { MakesCofactor (above self.old) a i t result (above self.new) }
        ensures below { MakesCofactor (below self.old) a (order self.old i) t result (below self.new) }
        ensures order { order self.new ≡ order self.old }
        ensures reorders { Reorders (order self.new) (below self.new) (above self.new) }
    {
        self.answer(Task::Cofactor(a, i, t))
    }
}

impl<S: Store> Store for Layer<S> {
    ghost use Rattle.order.specs.Layers.{below, order, above};

    ghost shows = { λ l. above l };

    fn answer(&mut self, task: Task) -> Result<u16, Refusal>
        ensures told { Makes (above self.old) task result (above self.new) }
        ensures below { AnswersAsBelow (order self.old) (below self.old) task result (below self.new) }
        ensures order { order self.new ≡ order self.old }
        ensures reorders { Reorders (order self.new) (below self.new) (above self.new) }
    {
        self.store.answer(self.order.task_below(task))
    }

    fn value(&mut self, a: u16, w: u32) -> Result<bool, Refusal>
        ensures same { above self.new ≡ above self.old }
        ensures still { below self.new ≡ below self.old }
        ensures order { order self.new ≡ order self.old }
        ensures told { TellsValue (above self.old) a w result }
        ensures below { TellsAsBelow (order self.old) (below self.old) a w result }
    {
        self.store.value(a, self.order.valuation_below(w))
    }

    fn figures(&mut self) -> Figures
        ensures same { above self.new ≡ above self.old }
        ensures still { below self.new ≡ below self.old }
        ensures order { order self.new ≡ order self.old }
        ensures told { TellsFigures (above self.old) result }
        ensures below { TellsFigures (below self.old) result }
    {
        self.store.figures()
    }
}
