// Functions put for variables.
ghost use Rattle.std.specs.Prelude.{◌+◌, ◌*◌, ◌<◌, length};
ghost use Rattle.store.specs.Meaning.{Grown};
ghost use Rattle.making.specs.Promises.{Cofactors, Composes, ComposesAll};
ghost use Rattle.making.specs.Promises.{CofactorsTold, ComposesTold, ComposesAllTold, Refuses, Passes};

use crate::parts::Polarities;
use store::Store;
use store::refusal::Refusal;

// The function a with false put for variable x, and with true.
pub(crate) fn cofactors<S: Store>(store: &mut S, a: u16, x: u8) -> Result<(u16, u16), Refusal>
    ensures grown { Grown (S.Store.shows store.old) (S.Store.shows store.new) }
    ensures gives { Cofactors (S.Store.shows store.old) a x result (S.Store.shows store.new) }
    ensures tells { CofactorsTold (S.Store.shows store.old) a x result (S.Store.shows store.new) }
    ensures refuses { Refuses (S.Store.shows store.old) a result (S.Store.shows store.new) }
{
    let low = store.cofactor(a, x, false)?;
    let high = store.cofactor(a, x, true)?;
    Ok((low, high))
}

// The function a with another put for variable x.
pub(crate) fn compose<S: Store>(
    store: &mut S,
    a: u16,
    x: u8,
    by: Polarities,
) -> Result<u16, Refusal>
    ensures grown { Grown (S.Store.shows store.old) (S.Store.shows store.new) }
    ensures gives { Composes (S.Store.shows store.old) a x by result (S.Store.shows store.new) }
    ensures tells { ComposesTold (S.Store.shows store.old) a x by result (S.Store.shows store.new) }
    ensures refuses { Refuses (S.Store.shows store.old) a result (S.Store.shows store.new) }
{
    let (low, high) = cofactors(store, a, x)?;
    let over = store.and(by.function, high)?;
    let under = store.and(by.negation, low)?;
    store.or(over, under)
}

// The function a with by[i] put for variable first + 2i, for each i. The bound is the range of a u8: `u8.MAX` would be no plainer.
pub(crate) fn compose_all<S: Store>(
    store: &mut S,
    a: u16,
    first: u8,
    by: &[Polarities],
) -> Result<u16, Refusal>
    requires { first + 2 * length by.now < 256 }
    ensures grown { Grown (S.Store.shows store.old) (S.Store.shows store.new) }
    ensures gives { ComposesAll (S.Store.shows store.old) a first by.now result (S.Store.shows store.new) }
    ensures tells { ComposesAllTold (S.Store.shows store.old) a first by.now result (S.Store.shows store.new) }
    ensures passes { Passes (S.Store.shows store.old) a result (S.Store.shows store.new) }
{
    let mut f = a;
    for (i, polarities) in by.iter().enumerate() {
        f = compose(store, f, first + 2 * i as u8, *polarities)?;
    }
    Ok(f)
}
