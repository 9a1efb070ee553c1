// The gates of a circuit.
ghost use Rattle.std.specs.Prelude.{◌≡◌, length, OnOk};
ghost use Rattle.circuit.specs.Netlists.{gate_line, lines};
ghost use Rattle.circuit.specs.Reading.{netlist};
ghost use Rattle.making.specs.Models.{alone};
ghost use Rattle.making.specs.Promises.{Literally, GatesOne, GatesAll};

use crate::FALSE;
use crate::fault::Fault;
use crate::lines::Numbers;
use crate::places::place_at;
use circuit::circuit::Circuit;
use circuit::gate::Gate;
use circuit::literal::Literal;
use description::part::Part;
use store::Store;
use store::refusal::Refusal;

// A literal over the lines' numbers.
fn literal<S: Store>(store: &mut S, numbers: &[u16], x: Literal) -> Result<u16, Refusal>
    ensures { Literally (S.Store.shows store.old) numbers.now x result (S.Store.shows store.new) }
{
    let a = numbers.get(usize::from(x.line())).copied().unwrap_or(FALSE);
    if x.is_negated() { store.not(a) } else { Ok(a) }
}

fn conjunction<S: Store>(store: &mut S, numbers: &[u16], gate: Gate) -> Result<u16, Refusal>
    ensures { GatesOne (S.Store.shows store.old) numbers.now gate result (S.Store.shows store.new) }
{
    let a = literal(store, numbers, gate.left)?;
    let b = literal(store, numbers, gate.right)?;
    store.and(a, b)
}

// Makes each gate, and writes its number after those of the lines before it.
pub(crate) fn make_gates<S: Store>(
    store: &mut S,
    circuit: &Circuit,
    numbers: &mut Numbers,
) -> Result<(), Fault>
    requires { length numbers.old.items ≡ gate_line (netlist circuit.now) 0 }
    ensures whole { OnOk result (length numbers.new.items ≡ lines (netlist circuit.now)) }
    ensures gates { GatesAll (S.Store.shows store.old) (alone (netlist circuit.now)) numbers.old.items result numbers.new.items (S.Store.shows store.new) }
{
    for (g, gate) in circuit.gates().iter().enumerate() {
        let made = conjunction(store, numbers, *gate);
        let number = place_at(made, Part::Circuit, g as u16)?;
        numbers.push(number);
    }
    Ok(())
}
