// All functions of a load.
ghost use Rattle.std.specs.Prelude.{◌≡◌, IfOk};
ghost use Rattle.circuit.specs.Reading.{netlist};
ghost use Rattle.claim.specs.Result.{used};
ghost use Rattle.description.specs.Results.{circuit_of, assumption_of, property_of};
ghost use Rattle.making.specs.Models.{alone};
ghost use Rattle.making.specs.Promises.{MakesLines, Builds};

use crate::FALSE;
use crate::claims::make_claim;
use crate::fault::Fault;
use crate::gates::make_gates;
use crate::lines::{Lines, Numbers};
use crate::parts::Built;
use crate::places::place_at;
use crate::start::make_start;
use crate::variables::make_variables;
use circuit::circuit::Circuit;
use description::described::Described;
use description::part::Part;
use store::Store;

fn make_lines<'a, S: Store>(store: &mut S, circuit: &'a Circuit) -> Result<Lines<'a>, Fault>
    ensures circuit { IfOk result (λ l. l.circuit.now ≡ circuit.now) }
    ensures makes { MakesLines (S.Store.shows store.old) (alone (netlist circuit.now)) result (S.Store.shows store.new) }
{
    let mut numbers = Numbers::new();
    numbers.push(FALSE);
    let made = make_variables(store, circuit, &mut numbers);
    let copies = place_at(made, Part::Circuit, 0)?;
    make_gates(store, circuit, &mut numbers)?;
    Ok(Lines {
        circuit,
        numbers,
        copies,
    })
}

/// Makes all functions of a circuit and its claims that a search starts from. `Room`, with the part and the place of the call, where
/// the store has no room for one, and `Variable` after all of the store's variables where the circuit takes more than it has.
pub fn build<S: Store>(store: &mut S, described: &Described) -> Result<Built, Fault>
    ensures { Builds (S.Store.shows store.old) (netlist (circuit_of described.now)) (used (assumption_of described.now)) (used (property_of described.now)) result (S.Store.shows store.new) }
{
    let lines = make_lines(store, described.circuit())?;
    let assumed = make_claim(store, Part::Assumption, &lines, described.assumption())?;
    let promised = make_claim(store, Part::Property, &lines, described.property())?;
    let start = make_start(store, &lines, assumed, promised);
    place_at(start, Part::Sets, 0)
}
