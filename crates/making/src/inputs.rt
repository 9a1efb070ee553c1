// Functions under some values of the inputs.
ghost use Rattle.std.specs.Prelude.{◌+◌, ◌<◌};
ghost use Rattle.store.specs.Meaning.{Grown};
ghost use Rattle.making.specs.Promises.{Exists, ExistsAll, ExistsTold, ExistsAllTold};

use crate::substitution::cofactors;
use store::Store;
use store::refusal::Refusal;

// Whether a is true for some value of variable x: the or of its two cofactors.
fn exists<S: Store>(store: &mut S, a: u16, x: u8) -> Result<u16, Refusal>
    ensures grown { Grown (S.Store.shows store.old) (S.Store.shows store.new) }
    ensures gives { Exists (S.Store.shows store.old) a x result (S.Store.shows store.new) }
    ensures tells { ExistsTold (S.Store.shows store.old) a x result (S.Store.shows store.new) }
{
    let (low, high) = cofactors(store, a, x)?;
    store.or(low, high)
}

// Whether a is true for some values of the m variables from first on. The bound is the range of a u8: `u8.MAX` would be no plainer.
pub(crate) fn exists_all<S: Store>(store: &mut S, a: u16, first: u8, m: u8) -> Result<u16, Refusal>
    requires { first + m < 256 }
    ensures grown { Grown (S.Store.shows store.old) (S.Store.shows store.new) }
    ensures gives { ExistsAll (S.Store.shows store.old) a first m result (S.Store.shows store.new) }
    ensures tells { ExistsAllTold (S.Store.shows store.old) a first m result (S.Store.shows store.new) }
{
    let mut f = a;
    for x in first..first + m {
        f = exists(store, f, x)?;
    }
    Ok(f)
}
