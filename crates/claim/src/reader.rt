// Claim, term and factor readers. They write codes, operands first.
ghost use Rattle.std.specs.Prelude.{◌≡◌, ℕ, ◌+◌, ◌<◌, ◌≤◌, [], ◌∷◌, length, MatchOption, MatchResult, ◌≢◌};
ghost use Rattle.claim.specs.declared.TheConstants.{LONGEST};
ghost use Rattle.claim.specs.declared.reader.TheConstants.{DEEPEST};
ghost use Rattle.claim.specs.declared.lexer.Token.TheVariants.{Close, End};
ghost use Rattle.claim.specs.Tokens.{tok, rparen, name};
ghost use Rattle.claim.specs.Seen.{kind_of, Placed, Numeral};
ghost use Rattle.claim.specs.Grammar.{claim, term, factor, value, code};

use crate::LONGEST;
use crate::code::*;
use crate::fault::Fault;
use crate::lexer::*;
use arrayvec::ArrayVec;
use circuit::sizes::Sizes;
use std::str;

const DEEPEST: usize = 16;

// There is room for a code for each byte that is left.
#[derive(Drop)]
pub(crate) struct Reader<'a> {
    text: &'a [u8],
    sizes: Sizes,
    pub(crate) ahead: Lexeme<'a>,
    pub(crate) codes: ArrayVec<Code, LONGEST>,
    ghost short: { length text.now ≤ LONGEST },
    ghost placed: { Placed text.now ahead },
    ghost fits: { length codes.items ≤ ahead.place },
}

// The number that the digits write, if it is below `most`.
fn number_below(digits: &[u8], most: u16) -> Option<u16>
    requires { Numeral digits.now }
    ensures { MatchOption result (most ≤ value digits.now) (λ n. (n ≡ value digits.now) × (n < most)) }
{
    let n = str::from_utf8(digits).ok()?.parse().ok()?;
    (n < most).then_some(n)
}

// How many `!` and `(` are open.
#[derive(Clone, Copy)]
pub(crate) struct Depth {
    opened: usize,
    ghost few: { opened ≤ DEEPEST },
}

impl Depth {
    pub(crate) const NONE: Self = Depth { opened: 0 };

    // One more, by this token.
    fn deeper(self, opener: Lexeme<'_>) -> Result<Self, Fault>
        ensures { MatchResult result
            (λ d. d.opened ≡ self.opened + 1)
            (λ f. (f ≡ Fault.Deep opener.entry.place) × (self.opened ≡ DEEPEST)) }
    {
        if self.opened < DEEPEST {
            Ok(Depth {
                opened: self.opened + 1,
            })
        } else {
            Err(Fault::Deep(opener.place))
        }
    }
}

impl<'a> Reader<'a> {
    ghost use Rattle.claim.specs.Reading.{ahead, Begun, Reach, Taken, Stopped};

    pub(crate) fn new(text: &'a [u8], sizes: Sizes) -> Self
        requires { length text.now ≤ LONGEST }
        ensures { Begun text.now sizes result }
    {
        Reader {
            text,
            sizes,
            ahead: next_token(text, 0),
            codes: ArrayVec::new(),
        }
    }

    // Passes the token ahead.
    fn pass(&mut self)
        requires { self.old.ahead.token ≢ End }
        ensures { Reach self.old self.new (ahead self.old ∷ []) [] }
    {
        self.ahead = next_token(self.text, self.ahead.end);
    }

    // Writes a code for a token that was passed.
    fn write(&mut self, act: Act, place: usize)
        requires room { length self.old.codes.items < self.old.ahead.place }
        requires place { place < 65536 }
        ensures wrote { Reach self.old self.new [] (code act place ∷ []) }
        ensures ahead { self.new.ahead ≡ self.old.ahead }
    {
        self.codes.push(Code {
            act,
            place: place as u16,
        });
    }

    // Writes the token ahead as an atom, and passes it.
    fn atom(&mut self, act: Act)
        requires { self.old.ahead.token ≢ End }
        ensures { Reach self.old self.new (ahead self.old ∷ []) (code act self.old.ahead.place ∷ []) }
    {
        let place = self.ahead.place;
        self.pass();
        self.write(act, place);
    }

    fn name(&mut self, sort: Sort, digits: &[u8]) -> Result<(), Fault>
        requires { kind_of self.old.ahead.token ≡ name sort digits.now }
        ensures { (d : ℕ) → MatchResult result
            (λ _. Taken factor d self.old self.new)
            (λ f. Stopped factor d self.old self.new f) }
    {
        let n = number_below(digits, self.sizes.of(sort)).ok_or(Fault::Name(self.ahead.place))?;
        self.atom(Act::Name(sort, n));
        Ok(())
    }

    // Passes the `)` that has to be ahead.
    fn close(&mut self) -> Result<(), Fault>
        ensures { MatchResult result
            (λ _. Reach self.old self.new (tok self.old.ahead.place rparen ∷ []) [])
            (λ f. (f ≡ Fault.Claim self.old.ahead.place) × (self.old.ahead.token ≢ Close) × (self.new ≡ self.old)) }
    {
        let Token::Close = self.ahead.token else {
            return Err(Fault::Claim(self.ahead.place));
        };
        self.pass();
        Ok(())
    }

    // Two loops: of one that takes the inner reader, `joined-requires` stayed open:
    // in a cycle it is not always callable.
    #[cycle(claim_factor_term)]
    pub(crate) fn claim(&mut self, depth: Depth) -> Result<(), Fault>
        ensures { MatchResult result
            (λ _. Taken claim depth.opened self.old self.new)
            (λ f. Stopped claim depth.opened self.old self.new f) }
    {
        self.term(depth)?;
        while let Token::Or = self.ahead.token {
            let place = self.ahead.place;
            self.pass();
            self.term(depth)?;
            self.write(Act::Or, place);
        }
        Ok(())
    }

    #[cycle(claim_factor_term)]
    fn term(&mut self, depth: Depth) -> Result<(), Fault>
        ensures { MatchResult result
            (λ _. Taken term depth.opened self.old self.new)
            (λ f. Stopped term depth.opened self.old self.new f) }
    {
        self.factor(depth)?;
        while let Token::And = self.ahead.token {
            let place = self.ahead.place;
            self.pass();
            self.factor(depth)?;
            self.write(Act::And, place);
        }
        Ok(())
    }

    #[cycle(claim_factor_term)]
    fn factor(&mut self, depth: Depth) -> Result<(), Fault>
        ensures { MatchResult result
            (λ _. Taken factor depth.opened self.old self.new)
            (λ f. Stopped factor depth.opened self.old self.new f) }
    {
        let place = self.ahead.place;
        match self.ahead.token {
            Token::Not => {
                let inner = depth.deeper(self.ahead)?;
                self.pass();
                self.factor(inner)?;
                self.write(Act::Not, place);
                Ok(())
            }
            Token::Open => {
                let inner = depth.deeper(self.ahead)?;
                self.pass();
                self.claim(inner)?;
                self.close()
            }
            Token::Constant(value) => {
                self.atom(Act::Constant(value));
                Ok(())
            }
            Token::Name(sort, digits) => self.name(sort, digits),
            _ => Err(Fault::Claim(place)),
        }
    }
}
