// Claims about a circuit: one or more terms joined by `|`, each one or more factors joined by `&`.
#![tactic(auto)]

ghost use Rattle.std.specs.Prelude.{◌≡◌, ℕ, Bool, [], ◌∷◌, MatchResult, IsOkAnd};
ghost use Rattle.circuit.specs.declared.sort.Sort.{Sort};
ghost use Rattle.claim.specs.Grammar.{Tree, post};
ghost use Rattle.claim.specs.Faults.{Read, Refused};
ghost use Rattle.claim.specs.Exact.{Exact};
ghost use Rattle.claim.specs.Decimals.{Decimals};
ghost use Rattle.claim.specs.Examples.{Examples};
ghost use Rattle.claim.specs.Result.{used, Reads};
ghost use Rattle.claim.specs.Truth.{logic, truth, exec, stack};

pub mod code;
pub mod codes;
pub mod fault;
mod lexer;
mod reader;

use circuit::sizes::Sizes;
use code::*;
use codes::Codes;
use fault::Fault;
use lexer::*;
use reader::{Depth, Reader};

// The most bytes of a text, and so the most codes of a claim.
pub const LONGEST: usize = 512;

/// Reads a claim about a circuit of these sizes: its codes, operands first, or its first fault.
// Inlined, since its frame is large: as a call of its own it made short jobs slower.
#[inline(always)]
pub fn read(text: &[u8], sizes: Sizes) -> Result<Codes, Fault>
    ensures answer { MatchResult result (λ c. Reads text.now sizes c) (λ f. Refused text.now sizes f) }
    ensures reads { (t : Tree) → Read text.now sizes t → IsOkAnd result (λ c. used c ≡ post t) }
    ensures exact { Exact text.now sizes }
{
    if text.len() > LONGEST {
        return Err(Fault::Claim(LONGEST));
    }
    let mut reader = Reader::new(text, sizes);
    reader.claim(Depth::NONE)?;
    match reader.ahead.token {
        Token::End => Ok(Codes { list: reader.codes }),
        _ => Err(Fault::Claim(reader.ahead.place)),
    }
}

// Each number is spelled in one way, as its digits are read.
pub fn numbers_are_spelled_once()
    ensures { Decimals }
{}

// How short texts come out.
pub fn examples()
    ensures { Examples }
{}

// The codes of a claim, run over a stack, leave its truth alone there.
pub fn codes_run_to_the_truth()
    ensures { (v : Sort → ℕ → Bool) (t : Tree) → exec (logic v) (post t) (stack []) ≡ stack (truth v t ∷ []) }
{}
