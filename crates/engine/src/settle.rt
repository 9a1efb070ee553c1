// Advances until the verdict is settled.
ghost use Rattle.std.specs.Prelude.{◌≡◌, Some, Err};
ghost use Rattle.uses.specs.declared.fault.Fault.TheVariants.{Empty};
ghost use Rattle.uses.specs.Calls.{empty};
ghost use Rattle.engine.specs.Keeping.{world, Keeps};
ghost use Rattle.engine.specs.Settling.{Settles, SettledOn};

use super::search::{MOST_STEPS, Search};
use super::session::Session;
use super::settled::{Depth, Settled};
use store::Store;
use uses::fault::Fault;
use uses::verdict::Verdict;

impl Search {
    // What it has settled on, unless its verdict is still open.
    fn settled(&self) -> Option<Settled>
        ensures { SettledOn (Some self.now) result }
    {
        let depth = Depth {
            advances: self.earlier.len() as u16,
        };
        match self.last.verdict {
            Verdict::Safe => Some(Settled::Safe(depth)),
            Verdict::Unsafe(_) => Some(Settled::Unsafe(depth)),
            Verdict::Empty | Verdict::Open => None,
        }
    }
}

impl<S: Store> Session<S> {
    fn settled(&self) -> Option<Settled>
        ensures { SettledOn self.now.search result }
    {
        self.search.as_ref()?.settled()
    }

    /// Advances until the verdict is settled, and answers the verdict with all the advances that the session
    /// has then accepted. A settled session is left as it is. A session that is empty, or whose store has no room,
    /// is refused as its advance is, and keeps what it came to.
    pub fn settle(&mut self) -> Result<Settled, Fault>
        ensures settles { Settles (world S.Store.shows self.old) result (world S.Store.shows self.new) }
        ensures empty { Keeps empty (world S.Store.shows self.old) → result ≡ Err Empty }
    {
        // One turn for each set that there can be.
        for _ in 0..MOST_STEPS {
            if let Some(settled) = self.settled() {
                return Ok(settled);
            }
            self.advance()?;
        }
        // No use of a session leads here: the last set that there can be is settled.
        Err(Fault::Settled)
    }
}
