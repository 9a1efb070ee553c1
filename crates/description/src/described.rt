// The one form of a circuit and its claims that is kept.
ghost use Rattle.circuit.specs.Reading.{netlist};
ghost use Rattle.claim.specs.Result.{used};
ghost use Rattle.description.specs.Stated.{Stated};

use circuit::circuit::Circuit;
use claim::codes::Codes;

/// What a circuit file and two texts say, once they have passed all checks. Its parts are lent and never copied, since they are large.
#[derive(Drop)]
pub struct Described {
    pub(crate) circuit: Circuit,
    pub(crate) assumed: Codes,
    pub(crate) promised: Codes,
    // So that who makes their functions need ask for nothing.
    ghost stated: { ∥ (Stated (netlist circuit) (used assumed) × Stated (netlist circuit) (used promised)) ∥₁ },
}

impl Described {
    ghost use Rattle.std.specs.Prelude.{◌≡◌};
    ghost use Rattle.description.specs.Results.{circuit_of, assumption_of, property_of};

    /// The circuit of the file.
    pub fn circuit(&self) -> &Circuit
        ensures { result.now ≡ circuit_of self.now }
    {
        &self.circuit
    }

    /// What the assumption's text says.
    pub fn assumption(&self) -> &Codes
        ensures { result.now ≡ assumption_of self.now }
    {
        &self.assumed
    }

    /// What the property's text says.
    pub fn property(&self) -> &Codes
        ensures { result.now ≡ property_of self.now }
    {
        &self.promised
    }
}
