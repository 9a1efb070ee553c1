// Claims over the lines of a circuit.
ghost use Rattle.std.specs.Prelude.{◌≡◌, ℕ, ◌≤◌, List, [], ◌∷◌, ◌++◌, length};
ghost use Rattle.circuit.specs.Reading.{netlist};
ghost use Rattle.claim.specs.Result.{used};
ghost use Rattle.making.specs.Models.{alone};
ghost use Rattle.making.specs.Promises.{ActsOn, MakesClaim};

use crate::FALSE;
use crate::fault::Fault;
use crate::lines::Lines;
use crate::places::place_at;
use arrayvec::ArrayVec;
use claim::LONGEST;
use claim::code::Act;
use claim::codes::Codes;
use description::part::Part;
use store::Store;
use store::refusal::Refusal;

// The operands of a claim, at most one for each code.
type Stack = ArrayVec<u16, LONGEST>;

// Takes the top of the stack, or false if it is empty.
fn pop(stack: &mut Stack) -> u16
    ensures top { (below : List ℕ) (a : ℕ) → stack.old.items ≡ below ++ a ∷ [] → (result ≡ a) × (stack.new.items ≡ below) }
    ensures lower { length stack.new.items ≤ length stack.old.items }
{
    stack.pop().unwrap_or(FALSE)
}

// Takes the two on top: the left one, and the right one above it.
// It asks for none, since a missing one is false.
fn pop_two(stack: &mut Stack) -> (u16, u16)
    ensures tops { (below : List ℕ) (a b : ℕ) → stack.old.items ≡ below ++ a ∷ b ∷ [] → (result ≡ (a, b)) × (stack.new.items ≡ below) }
    ensures lower { length stack.new.items ≤ length stack.old.items }
{
    let b = pop(stack);
    let a = pop(stack);
    (a, b)
}

// The number of an act's function. Its operands leave the stack. A match, and no closures: an act is data, read from a text.
fn act_on<S: Store>(
    store: &mut S,
    lines: &Lines,
    act: Act,
    stack: &mut Stack,
) -> Result<u16, Refusal>
    ensures lower { length stack.new.items ≤ length stack.old.items }
    ensures acts { ActsOn (S.Store.shows store.old) (alone (netlist lines.now.circuit.now)) act lines.now.numbers.items stack.old.items result stack.new.items (S.Store.shows store.new) }
{
    match act {
        Act::Constant(value) => Ok(u16::from(value)),
        Act::Name(sort, i) => Ok(lines.named(sort, i)),
        Act::Not => {
            let a = pop(stack);
            store.not(a)
        }
        Act::And => {
            let (a, b) = pop_two(stack);
            store.and(a, b)
        }
        Act::Or => {
            let (a, b) = pop_two(stack);
            store.or(a, b)
        }
    }
}

// The number of the claim that the codes say.
pub(crate) fn make_claim<S: Store>(
    store: &mut S,
    part: Part,
    lines: &Lines,
    codes: &Codes,
) -> Result<u16, Fault>
    ensures { MakesClaim (S.Store.shows store.old) part (alone (netlist lines.now.circuit.now)) (used codes.now) lines.now.numbers.items result (S.Store.shows store.new) }
{
    let mut stack = Stack::new();
    for code in codes.codes() {
        let made = act_on(store, lines, code.act, &mut stack);
        let number = place_at(made, part, code.place)?;
        stack.push(number);
    }
    Ok(pop(&mut stack))
}
