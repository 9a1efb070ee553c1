// One step back from a set.
ghost use Rattle.store.specs.Meaning.{Grown};
ghost use Rattle.making.specs.Promises.{StepsBack, Behaves};

use crate::inputs::exists_all;
use crate::parts::Parts;
use crate::substitution::compose_all;
use crate::variables::{FIRST_COPY, FIRST_REGISTER, first_input};
use store::Store;
use store::refusal::Refusal;

/// The states from which a permitted step leads into the set, or that are in it: all of an advance's list but the call with Init.
/// Numbers that are not held, a store with too few variables, and one with too few free units, are refused as the store refuses them.
pub fn back<S: Store>(store: &mut S, from: u16, parts: &Parts) -> Result<u16, Refusal>
    ensures grown { Grown (S.Store.shows store.old) (S.Store.shows store.new) }
    ensures gives { StepsBack (S.Store.shows store.old) from parts.now result (S.Store.shows store.new) }
    ensures behaves { Behaves (S.Store.shows store.old) from parts.now result (S.Store.shows store.new) }
{
    let copied = compose_all(store, from, FIRST_REGISTER, parts.copies.as_slice())?;
    let led = compose_all(store, copied, FIRST_COPY, parts.nexts.as_slice())?;
    let allowed = store.and(led, parts.assumed)?;
    let some = exists_all(store, allowed, first_input(parts.registers()), parts.m)?;
    store.or(some, from)
}
