// The trace of an unsafe verdict.
ghost use Rattle.std.specs.Prelude.{◌≡◌, ◌<◌, length};
ghost use Rattle.uses.specs.Calls.{trace};
ghost use Rattle.engine.specs.Keeping.{world, Next};
ghost use Rattle.engine.specs.Questions.{Spares, Spared, Walks};

use super::finding::smallest;
use super::search::Search;
use super::session::Session;
use super::step::Step;
use store::Store;
use uses::fault::Fault;
use uses::verdict::Verdict;

impl Search {
    // From the smallest initial state in the last set, through the sets before it, to the smallest input at fault.
    fn walk<S: Store>(
        &self,
        store: &mut S,
        states: &mut [u16],
        inputs: &mut [u16],
    ) -> Result<(), Fault>
        requires states_fit { length self.now.earlier.items < length states.now }
        requires inputs_fit { length self.now.earlier.items < length inputs.now }
        ensures same { S.Store.shows store.new ≡ S.Store.shows store.old }
        ensures spares { Spares (length self.now.earlier.items) states.old inputs.old states.new inputs.new }
        ensures walks { Walks (S.Store.shows store.old) self.now result states.new inputs.new }
    {
        let depth = self.earlier.len();
        let first = smallest(
            store,
            self.states(),
            |store, state| self.begins_in(store, self.last.set, state),
        )?;
        states[0] = first;
        for t in 0..depth {
            let state = states[t];
            let set = self.earlier.as_slice()[depth - t - 1];
            let input = smallest(
                store,
                self.inputs(),
                |store, input| self.leads_into(store, set, Step { state, input }),
            )?;
            inputs[t] = input;
            states[t + 1] = self.next_state(store, Step { state, input })?;
        }
        let state = states[depth];
        let last = smallest(
            store,
            self.inputs(),
            |store, input| self.at_fault(store, Step { state, input }),
        )?;
        inputs[depth] = last;
        Ok(())
    }
}

impl<S: Store> Session<S> {
    // Fills the starts of both arrays with the states and the inputs of the trace.
    // Two arrays of numbers, and no list of steps: the rule of the call has its caller lend them.
    pub fn trace(&mut self, states: &mut [u16], inputs: &mut [u16]) -> Result<(), Fault>
        ensures next { Next
            (world S.Store.shows self.old)
            (trace states.old inputs.old states.new inputs.new result)
            (world S.Store.shows self.new) }
        ensures same { world S.Store.shows self.new ≡ world S.Store.shows self.old }
        ensures spares { Spared self.old.search states.old inputs.old states.new inputs.new }
    {
        let search = self.search.as_ref().ok_or(Fault::Empty)?;
        let Verdict::Unsafe(_) = search.last.verdict else {
            return Err(Fault::Verdict);
        };
        let entries = search.earlier.len() + 1;
        if states.len().min(inputs.len()) < entries {
            return Err(Fault::Short {
                needed: entries as u16,
            });
        }
        search.walk(&mut self.store, states, inputs)
    }
}
