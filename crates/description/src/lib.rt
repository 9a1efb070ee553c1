// What a circuit file and two texts describe, or the first fault that they have.
#![tactic(auto)]

ghost use Rattle.std.specs.Prelude.{Err, MatchResult};
ghost use Rattle.description.specs.Checks.{Checked};
ghost use Rattle.description.specs.Results.{Understood};

pub mod described;
pub mod fault;
mod laws;
pub mod notice;
pub mod part;
pub mod source;

use described::Described;
use fault::Fault;
pub use laws::checks_give_one_answer;
use source::Source;

// All checks of a circuit file and its claims, for a store of `width` variables.
pub fn describe(source: Source, width: u8) -> Result<Described, Fault>
    ensures { MatchResult result (Understood width source.entry.circuit.now source.entry.assumption.now source.entry.property.now) (λ e. Checked width source.entry.circuit.now source.entry.assumption.now source.entry.property.now (Err e)) }
{
    let circuit = circuit::read(source.circuit, width).map_err(Fault::Circuit)?;
    let sizes = circuit.sizes();
    let assumption = claim::read(source.assumption, sizes).map_err(Fault::Assumption)?;
    let property = claim::read(source.property, sizes).map_err(Fault::Property)?;
    Ok(Described {
        circuit,
        assumed: assumption,
        promised: property,
    })
}
