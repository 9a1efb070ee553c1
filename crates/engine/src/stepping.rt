// What a search reads from its store: the truth of its functions, and one step of its circuit.
// That the store then shows the same stays a clause of each: a struct that lent the store would have each method say,
// too, that it keeps the reference.
ghost use Rattle.std.specs.Prelude.{◌≡◌};
ghost use Rattle.making.specs.Loads.{registers_of};
ghost use Rattle.engine.specs.Questions.{Tells, GoesTo, Leads, Faults, Begins};

use super::search::Search;
use super::step::Step;
use description::part::Part;
use making::fault::Fault as Unmade;
use making::place_at;
use store::Store;

impl Search {
    // The truth of a function at a step. A refusal is of the call, at no place in it.
    pub(crate) fn truth<S: Store>(
        &self,
        store: &mut S,
        function: u16,
        step: Step,
    ) -> Result<bool, Unmade>
        ensures same { S.Store.shows store.new ≡ S.Store.shows store.old }
        ensures tells { Tells
            (S.Store.shows store.old)
            (registers_of self.now.parts)
            function
            step.state
            step.input
            result }
    {
        let value = store.value(function, step.valuation(self.parts.registers()));
        place_at(value, Part::Call, 0)
    }

    // The state after a step.
    pub(crate) fn next_state<S: Store>(&self, store: &mut S, step: Step) -> Result<u16, Unmade>
        ensures same { S.Store.shows store.new ≡ S.Store.shows store.old }
        ensures goes { GoesTo (S.Store.shows store.old) self.now.parts step.state step.input result }
    {
        let mut next = 0;
        for bit in self.parts.nexts.as_slice().iter().rev() {
            next = 2 * next + u16::from(self.truth(store, bit.function, step)?);
        }
        Ok(next)
    }

    // Whether a step satisfies the assumption and leads into a set.
    pub(crate) fn leads_into<S: Store>(
        &self,
        store: &mut S,
        set: u16,
        step: Step,
    ) -> Result<bool, Unmade>
        ensures same { S.Store.shows store.new ≡ S.Store.shows store.old }
        ensures leads { Leads (S.Store.shows store.old) self.now.parts set step.state step.input result }
    {
        if !self.truth(store, self.parts.assumed, step)? {
            return Ok(false);
        }
        let next = self.next_state(store, step)?;
        self.truth(store, set, Step::at(next))
    }

    // Whether a step satisfies the assumption and the property fails there.
    pub(crate) fn at_fault<S: Store>(&self, store: &mut S, step: Step) -> Result<bool, Unmade>
        ensures same { S.Store.shows store.new ≡ S.Store.shows store.old }
        ensures faults { Faults (S.Store.shows store.old) self.now.parts step.state step.input result }
    {
        Ok(
            self.truth(store, self.parts.assumed, step)?
                && !self.truth(store, self.parts.property, step)?,
        )
    }

    // Whether a state is initial and in a set.
    pub(crate) fn begins_in<S: Store>(
        &self,
        store: &mut S,
        set: u16,
        state: u16,
    ) -> Result<bool, Unmade>
        ensures same { S.Store.shows store.new ≡ S.Store.shows store.old }
        ensures begins { Begins (S.Store.shows store.old) self.now.parts set state result }
    {
        let start = Step::at(state);
        Ok(self.truth(store, self.parts.init, start)? && self.truth(store, set, start)?)
    }
}
