// Functions with their negations.
ghost use Rattle.std.specs.Prelude.{◌≡◌, ◌≤◌, length, IfOk};
ghost use Rattle.making.specs.Promises.{Negates};

use crate::parts::Polarities;
use circuit::MOST_REGISTERS;
use copy_list::CopyList;
use store::Store;
use store::refusal::Refusal;

pub(crate) fn with_negations<S: Store>(
    store: &mut S,
    functions: &[u16],
) -> Result<CopyList<Polarities, MOST_REGISTERS>, Refusal>
    requires { length functions.now ≤ MOST_REGISTERS }
    ensures each { IfOk result (λ ps. length ps.items ≡ length functions.now) }
    ensures negates { Negates (S.Store.shows store.old) functions.now result (S.Store.shows store.new) }
{
    let mut pairs = CopyList::new();
    for function in functions {
        let negation = store.not(*function)?;
        let pair = Polarities {
            function: *function,
            negation,
        };
        pairs.push(pair).unwrap();
    }
    Ok(pairs)
}
