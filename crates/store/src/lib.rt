// A store of Boolean functions: what each call answers, and what the store then shows, for every make alike.
#![tactic(auto)]

ghost use Rattle.std.specs.Prelude.{◌≡◌};
ghost use Rattle.store.specs.Meaning.{Shown};
ghost use Rattle.store.specs.Calls.{Makes, MakesVariable, MakesNot, MakesAnd, MakesOr, MakesCofactor, TellsValue, TellsFigures};
ghost use Rattle.store.specs.Numbers.{number_of, number_of_unfit};

pub mod bits;
pub mod figures;
pub mod fitting;
pub mod refusal;
pub mod task;

use figures::Figures;
use refusal::{Refusal, Unfit};
use task::{Op, Task};

// The most variables of a store.
pub const MOST_VARIABLES: u8 = 24;

impl Refusal {
    // A method, since `as` takes no enum that holds values.
    pub fn number(self) -> u8
        ensures { result ≡ number_of self }
    {
        match self {
            Refusal::Room(_) => 10,
            Refusal::Number => 16,
            Refusal::Variable => 17,
        }
    }
}

impl Unfit {
    /// Its number in the list of refusals.
    pub fn number(self) -> u8
        ensures { result ≡ number_of_unfit self }
    {
        self as u8
    }
}

// That what is shown is lawful is in each reply, and no law: lists of calls have no store, and only what one shows.
pub trait Store {
    ghost shows: { Self → Shown };

    // The reply to a making call, which is one of those below.
    fn answer(&mut self, task: Task) -> Result<u16, Refusal>
        ensures { Makes (shows self.old) task result (shows self.new) };

    final fn variable(&mut self, i: u8) -> Result<u16, Refusal>
        ensures { MakesVariable (shows self.old) i result (shows self.new) }
    {
        self.answer(Task::Variable(i))
    }

    final fn not(&mut self, a: u16) -> Result<u16, Refusal>
        ensures { MakesNot (shows self.old) a result (shows self.new) }
    {
        self.answer(Task::Not(a))
    }

    final fn and(&mut self, a: u16, b: u16) -> Result<u16, Refusal>
        ensures { MakesAnd (shows self.old) a b result (shows self.new) }
    {
        self.answer(Task::Both(Op::And, a, b))
    }

    final fn or(&mut self, a: u16, b: u16) -> Result<u16, Refusal>
        ensures { MakesOr (shows self.old) a b result (shows self.new) }
    {
        self.answer(Task::Both(Op::Or, a, b))
    }

    // The function a with variable i fixed to t.
    final fn cofactor(&mut self, a: u16, i: u8, t: bool) -> Result<u16, Refusal>
        ensures { MakesCofactor (shows self.old) a i t result (shows self.new) }
    {
        self.answer(Task::Cofactor(a, i, t))
    }

    // The questions: they change nothing that is shown.
    fn value(&mut self, a: u16, w: u32) -> Result<bool, Refusal>
        ensures same { shows self.new ≡ shows self.old }
        ensures told { TellsValue (shows self.old) a w result };

    fn figures(&mut self) -> Figures
        ensures same { shows self.new ≡ shows self.old }
        ensures told { TellsFigures (shows self.old) result };
}

// A lent store is a store, so that whoever takes one can be handed the reference: a store may be large.
impl<S: Store> Store for &mut S {
    ghost shows = { λ s. S.Store.shows s.now };

    #[inline(always)]
    fn answer(&mut self, task: Task) -> Result<u16, Refusal> {
        (**self).answer(task)
    }

    fn value(&mut self, a: u16, w: u32) -> Result<bool, Refusal> {
        (**self).value(a, w)
    }

    fn figures(&mut self) -> Figures {
        (**self).figures()
    }
}
