// What is proved of the checks of a circuit file and its claims.
ghost use Rattle.std.specs.Prelude.{ℕ, List};
ghost use Rattle.description.specs.Checks.{OneAnswer};

// The checks give one answer.
pub fn checks_give_one_answer()
    ensures { (width : ℕ) (file : List ℕ) (assumed : List ℕ) (promised : List ℕ) → OneAnswer width file assumed promised }
{}
