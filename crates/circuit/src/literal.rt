ghost use Rattle.std.specs.Prelude.{◌≡◌};
ghost use Rattle.circuit.specs.Literals.{literal_of};

use std::marker::Model;

// A line or its negation, in two bytes: moving the gates of a circuit takes time.
#[derive(Clone, Copy, Default, PartialEq, Eq, Debug)]
pub struct Literal {
    number: u16,
}

impl Model for Literal {
    ghost use Rattle.std.specs.Prelude.{ℕ, ◌≡◌};
    ghost use Rattle.std.proofs.Common.{arith};
    ghost use Rattle.circuit.specs.Literals.{Literal as Said, literal_of, literal_number};

    ghost Value = { Said };

    ghost view = { λ l. literal_of l.number };

    ghost inverse = { λ x. record { number = literal_number x } };

    ghost inverse_ok = { λ l h.
        let e : literal_number (literal_of l.number) ≡ l.number = Prim.grind arith in
        λ i. record { number = e i } };
}

// From its number in a file: 2x is line x, and 2x + 1 is its negation. By hand, since a clause says which it is (`from_gives`).
impl From<u16> for Literal {
    ghost from_gives = { λ number l. l ≡ literal_of number };

    fn from(number: u16) -> Literal {
        Literal { number }
    }
}

impl Literal {
    pub fn line(self) -> u16
        ensures { result ≡ self.line }
    {
        self.number / 2
    }

    pub fn is_negated(self) -> bool
        ensures { result ≡ self.negated }
    {
        self.number % 2 == 1
    }
}
