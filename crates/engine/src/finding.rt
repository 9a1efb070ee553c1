// The smallest states and inputs of a trace.
ghost use Rattle.std.specs.Prelude.{◌≡◌, ℕ, Bool};
ghost use Rattle.engine.specs.Questions.{Finds, Keeping, Telling};

use making::fault::Fault as Unmade;
use store::Store;

// The smallest number below `count` at which `holds` says so. One that is sought is always there, so that none is found
// only in a store that lost a number.
pub(crate) fn smallest<S: Store, F: Fn(&mut S, u16) -> Result<bool, Unmade>>(
    store: &mut S,
    count: u16,
    holds: F,
) -> Result<u16, Unmade>
    requires callable { F.IsAlwaysCallable holds }
    requires still { Keeping S.Store.shows (F.post holds) }
    ensures same { S.Store.shows store.new ≡ S.Store.shows store.old }
    ensures finds { (f : ℕ → Bool)
        → Telling S.Store.shows (F.post holds) (S.Store.shows store.old) count f
        → Finds count f result }
{
    // A `for`: `find` takes no test that can be refused.
    for x in 0..count {
        if holds(store, x)? {
            return Ok(x);
        }
    }
    Err(Unmade::Number)
}
