// The calls of a store.
ghost use Rattle.diagram.specs.Shows.{showing};

use super::Diagram;
use store::Store;
use store::figures::Figures;
use store::refusal::Refusal;
use store::task::{Task, check_value};

impl Store for Diagram<'_> {
    ghost shows = { λ d. showing d };

    // Inlined into each call, where the kind of the task is known.
    #[inline(always)]
    fn answer(&mut self, task: Task) -> Result<u16, Refusal> {
        let used = self.nodes.len();
        task.check(used, self.n)?;
        let made = self.make(task);
        self.finish(used, made)
    }

    // Each make says this: said once, the trait would need the truth of any number, held or not, and that numbers are held in a row.
    fn value(&mut self, a: u16, w: u32) -> Result<bool, Refusal> {
        check_value(a, w, self.nodes.len(), self.n)?;
        Ok(self.truth(a, w))
    }

    // Each make counts its own records, and has its own top price.
    fn figures(&mut self) -> Figures {
        Figures {
            variables: self.n,
            used: self.used(),
            capacity: self.capacity(),
            top_price: self.valuations() - 1,
        }
    }
}
