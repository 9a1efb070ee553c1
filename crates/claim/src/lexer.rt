// Cuts a claim's text into tokens.
ghost use Rattle.std.specs.Prelude.{◌≡◌, ℕ, ◌≤◌, ◌==◌, Bool, length, ◌≢◌};
ghost use Rattle.std.specs.List.{prefix_len};
ghost use Rattle.claim.specs.Tokens.{class, digit, name_of};
ghost use Rattle.claim.specs.Seen.{kind_of, class_of, Lexed};

use crate::code::*;

#[derive(Clone, Copy)]
pub(crate) enum Token<'a> {
    Not,
    And,
    Or,
    Open,
    Close,
    Constant(bool),
    Name(Sort, &'a [u8]),
    Wrong,
    End,
}

// A token with its place, and the place after it.
#[derive(Clone, Copy)]
pub(crate) struct Lexeme<'a> {
    pub(crate) token: Token<'a>,
    pub(crate) place: usize,
    pub(crate) end: usize,
}

// What a byte other than a space begins.
enum Class<'a> {
    Mark(Token<'a>),
    Letter(Sort),
}

fn class_of<'a>(byte: u8) -> Class<'a>
    requires { byte ≢ 32 }
    ensures { class_of result ≡ class byte }
{
    match char::from(byte) {
        '!' => Class::Mark(Token::Not),
        '&' => Class::Mark(Token::And),
        '|' => Class::Mark(Token::Or),
        '(' => Class::Mark(Token::Open),
        ')' => Class::Mark(Token::Close),
        '0' => Class::Mark(Token::Constant(false)),
        '1' => Class::Mark(Token::Constant(true)),
        's' => Class::Letter(Sort::Register),
        'v' => Class::Letter(Sort::Input),
        'g' => Class::Letter(Sort::Gate),
        _ => Class::Mark(Token::Wrong),
    }
}

fn is_space(byte: u8) -> bool
    ensures { result ≡ (byte == 32) }
{
    matches!(char::from(byte), ' ')
}

fn is_digit(byte: u8) -> bool
    ensures { result ≡ digit byte }
{
    matches!(char::from(byte), '0'..='9')
}

// How many bytes at the front of the text pass a test.
fn leading<F: Fn(u8) -> bool>(text: &[u8], test: F) -> usize
    requires { F.IsAlwaysCallable test }
    ensures count { (passes : ℕ → Bool) → ((byte : ℕ) (r : Bool) → F.post test byte r → r ≡ passes byte)
        → result ≡ prefix_len passes text.now }
    ensures within { result ≤ length text.now }
{
    text.iter().take_while(|byte| test(**byte)).count()
}

// The name that a letter begins with these digits.
fn name(sort: Sort, digits: &[u8]) -> Token<'_>
    ensures { kind_of result ≡ name_of sort digits.now }
{
    match digits {
        [] => Token::Wrong,
        [first, _, ..] if matches!(char::from(*first), '0') => Token::Wrong,
        _ => Token::Name(sort, digits),
    }
}

// The first token at or after `at`.
pub(crate) fn next_token(text: &[u8], at: usize) -> Lexeme<'_>
    requires { at ≤ length text.now }
    ensures { Lexed text.now at result }
{
    let place = at + leading(&text[at..], is_space);
    let Some(byte) = text.get(place) else {
        return Lexeme {
            token: Token::End,
            place,
            end: place,
        };
    };
    match class_of(*byte) {
        Class::Mark(token) => Lexeme {
            token,
            place,
            end: place + 1,
        },
        Class::Letter(sort) => {
            let end = place + 1 + leading(&text[place + 1..], is_digit);
            Lexeme {
                token: name(sort, &text[place + 1..end]),
                place,
                end,
            }
        }
    }
}
