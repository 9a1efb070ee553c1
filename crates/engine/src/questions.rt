// A new session, its store handed back, its verdict, and which states its last set does not hold.
ghost use Rattle.std.specs.Prelude.{◌≡◌, List, []};
ghost use Rattle.store.specs.Meaning.{Shown};
ghost use Rattle.uses.specs.Calls.{State, empty, stand, Event, ask, inside};
ghost use Rattle.uses.specs.Promise.{Promise};
ghost use Rattle.uses.specs.Uses.{Use};
ghost use Rattle.engine.specs.Keeping.{world, Keeps, Next};

use super::session::Session;
use super::step::Step;
use store::Store;
use uses::fault::Fault;
use uses::verdict::Verdict;

impl<S: Store> Session<S> {
    // An empty session over a store, whatever that holds.
    pub fn new(store: S) -> Session<S>
        ensures store { (world S.Store.shows result).store ≡ S.Store.shows store }
        ensures begun { Use (S.Store.shows store) [] (stand empty (world S.Store.shows result).store) }
        ensures keeps { Keeps empty (world S.Store.shows result) }
    {
        Session {
            store,
            search: None,
        }
    }

    /// Hands back the store, which shows what it showed last.
    pub fn into_store(self) -> S
        ensures { S.Store.shows result ≡ (world S.Store.shows self).store }
    {
        self.store
    }

    // The verdict, and with it what any use that led here comes to.
    // No `Option`: `Empty` is a verdict of the rules, which a session answers before a load.
    pub fn verdict(&mut self) -> Verdict
        ensures promise { (start : Shown) (history : List Event) (state : State)
            → Use start history (stand state (world S.Store.shows self.old).store)
            → Keeps state (world S.Store.shows self.old)
            → Promise start history state result }
        ensures next { Next (world S.Store.shows self.old) (ask result) (world S.Store.shows self.new) }
        ensures same { self.new ≡ self.old }
    {
        self.search
            .as_ref()
            .map_or(Verdict::Empty, |search| search.last.verdict)
    }

    // Whether the last set does not hold a state.
    pub fn inside(&mut self, state: u16) -> Result<bool, Fault>
        ensures next { Next (world S.Store.shows self.old) (inside state result) (world S.Store.shows self.new) }
        ensures same { world S.Store.shows self.new ≡ world S.Store.shows self.old }
    {
        let search = self.search.as_ref().ok_or(Fault::Empty)?;
        let Verdict::Safe = search.last.verdict else {
            return Err(Fault::Verdict);
        };
        if state >= search.states() {
            return Err(Fault::State);
        }
        let held = search.truth(&mut self.store, search.last.set, Step::at(state))?;
        Ok(!held)
    }
}
