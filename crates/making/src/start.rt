// The first set, and what an advance takes besides.
ghost use Rattle.circuit.specs.Reading.{netlist};
ghost use Rattle.making.specs.Models.{alone};
ghost use Rattle.making.specs.Promises.{MakesFirst, MakesStart};

use crate::inputs::exists_all;
use crate::lines::Lines;
use crate::negations::with_negations;
use crate::parts::{Built, Parts};
use crate::variables::first_input;
use circuit::circuit::Circuit;
use store::Store;
use store::refusal::Refusal;

// The states with an input where the assumption holds and the property fails.
fn first_set<S: Store>(
    store: &mut S,
    circuit: &Circuit,
    assumed: u16,
    property: u16,
) -> Result<u16, Refusal>
    ensures { MakesFirst (S.Store.shows store.old) (alone (netlist circuit.now)) assumed property result (S.Store.shows store.new) }
{
    let broken = store.not(property)?;
    let allowed = store.and(broken, assumed)?;
    let first = first_input(circuit.registers());
    exists_all(store, allowed, first, circuit.inputs())
}

// The two claims are two parameters: a struct of them would be taken apart here, since those who read `Parts` take each by itself.
pub(crate) fn make_start<S: Store>(
    store: &mut S,
    lines: &Lines,
    assumed: u16,
    property: u16,
) -> Result<Built, Refusal>
    ensures { MakesStart (S.Store.shows store.old) (alone (netlist lines.now.circuit.now)) lines.now.numbers.items lines.now.copies.items assumed property result (S.Store.shows store.new) }
{
    let m = lines.circuit.inputs();
    let init = lines.init();
    let set = first_set(store, lines.circuit, assumed, property)?;
    let met = store.and(set, init)?;
    let copies = with_negations(store, &lines.copies)?;
    let nexts = with_negations(store, lines.nexts())?;
    let parts = Parts {
        m,
        copies,
        nexts,
        assumed,
        property,
        init,
    };
    Ok(Built { parts, set, met })
}
