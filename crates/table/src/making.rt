// How a function is made: its table is worked out, unless it is a constant, and looked up or added.
ghost use Rattle.std.specs.Prelude.{◌≡◌, ◌+◌, length, true};
ghost use Rattle.records.specs.Contents.{entries};
ghost use Rattle.store.specs.Calls.{Answers};
ghost use Rattle.store.specs.Tasks.{within, asked};
ghost use Rattle.table.specs.Shows.{value};
ghost use Rattle.table.specs.Store.{shows};
ghost use Rattle.table.specs.Tables.{FormOf};

use super::Table;
use super::truths::Form;
use store::bits::{bit, with_bit};
use store::refusal::Refusal;
use store::task::{Op, Task};

impl Table<'_> {
    // The truth of the function under a number at w.
    pub(super) fn truth(&self, a: u16, w: u32) -> bool
        ensures { result ≡ value (entries self.now.list) a w }
    {
        if a < 2 {
            return a == 1;
        }
        self.record(a).is_some_and(|t| t.at(w))
    }

    // The function that the task asks for, as a constant or a table.
    fn form(&self, task: Task) -> Form
        requires { within (shows self.now) task ≡ true }
        ensures { FormOf self.now.n (asked (shows self.now) task) result }
    {
        match task {
            Task::Variable(i) => Form::of(self.n, |w| bit(w, i)),
            Task::Not(a) => Form::of(self.n, |w| !self.truth(a, w)),
            Task::Both(Op::And, a, b) => Form::of(self.n, |w| self.truth(a, w) && self.truth(b, w)),
            Task::Both(Op::Or, a, b) => Form::of(self.n, |w| self.truth(a, w) || self.truth(b, w)),
            Task::Cofactor(a, i, t) => Form::of(self.n, |w| self.truth(a, with_bit(w, i, t))),
        }
    }

    // The number of what the task asks for: a constant has its own, and another table is found or added.
    // Not inlined, so that a refusal clears no table.
    #[inline(never)]
    pub(super) fn make(&mut self, task: Task) -> Result<u16, Refusal>
        requires { within (shows self.old) task ≡ true }
        ensures { Answers (shows self.old) (shows self.new) (asked (shows self.old) task) result }
    {
        let table = match self.form(task) {
            Form::Constant(t) => return Ok(u16::from(t)),
            Form::Mixed(table) => table,
        };
        let place = self.list.find_or_add(table).map_err(|_| Refusal::Room(0))?;
        Ok(place as u16 + 2)
    }
}
