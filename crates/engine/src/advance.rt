// The call that makes the next set.
ghost use Rattle.std.specs.Prelude.{◌≡◌, ◌<◌, true, length, is_err};
ghost use Rattle.uses.specs.Calls.{advance};
ghost use Rattle.engine.specs.Keeping.{world, searching, Next};
ghost use Rattle.engine.specs.Advancing.{Advances};

use super::search::{MOST_ADVANCES, Search};
use super::session::Session;
use super::stage::{Stage, verdict_at};
use description::part::Part;
use making::fault::Fault as Unmade;
use making::{back, place_at};
use store::Store;
use uses::fault::Fault;
use uses::verdict::Verdict;

impl Search {
    // From the last set the next one, and the verdict with it.
    // Not inlined: its frame is large, and a refusal needs none.
    #[inline(never)]
    fn step<S: Store>(&self, store: &mut S) -> Result<Stage, Unmade>
        requires { length self.now.earlier.items < MOST_ADVANCES }
        ensures { Advances (S.Store.shows store.old) self.now result (S.Store.shows store.new) }
    {
        let count = self.earlier.len() as u16;
        let set = place_at(back(store, self.last.set, &self.parts), Part::Sets, count)?;
        let verdict = if set == self.last.set {
            Verdict::Safe
        } else {
            let met = place_at(store.and(set, self.parts.init), Part::Sets, count)?;
            verdict_at(count + 1, met)
        };
        Ok(Stage { set, verdict })
    }

    fn advance<S: Store>(&mut self, store: &mut S) -> Result<Verdict, Fault>
        ensures next { Next
            (searching (S.Store.shows store.old) self.old)
            (advance result)
            (searching (S.Store.shows store.new) self.new) }
        ensures refused { is_err result ≡ true → self.new ≡ self.old }
    {
        let Verdict::Open = self.last.verdict else {
            return Err(Fault::Settled);
        };
        // Never so in a session: the last set that there can be is settled.
        if self.earlier.len() == MOST_ADVANCES {
            return Err(Fault::Settled);
        }
        let stage = self.step(store)?;
        self.earlier.push(self.last.set).unwrap();
        self.last = stage;
        Ok(stage.verdict)
    }
}

impl<S: Store> Session<S> {
    pub fn advance(&mut self) -> Result<Verdict, Fault>
        ensures next { Next (world S.Store.shows self.old) (advance result) (world S.Store.shows self.new) }
        ensures refused { is_err result ≡ true → self.new.search ≡ self.old.search }
    {
        let search = self.search.as_mut().ok_or(Fault::Empty)?;
        search.advance(&mut self.store)
    }
}
