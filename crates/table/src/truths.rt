// One function of at most 10 variables.
ghost use Rattle.std.specs.Prelude.{◌≡◌, ◌*◌, ◌^◌, ◌<◌, ◌≤◌};
ghost use Rattle.store.specs.Fun.{Fn};
ghost use Rattle.table.specs.declared.TheConstants.{MOST};
ghost use Rattle.table.specs.Tables.{truth, packed, packed_truths, table, Constant, Computes, EndsAt, FormOf};
ghost use Rattle.table.specs.Hash.{mixed};
ghost use Rattle.table.specs.Identity.{alike_mixed};

use crate::MOST;
use records::entry::Entry;
use std::array;
use store::bits::bit;

// A bit for each valuation of the most variables.
const BYTES: usize = 1 << (MOST - 3);

// Its value at the valuation w is bit w mod 8 of byte w div 8.
#[derive(Clone, Copy, PartialEq, Eq, Default, Debug)]
pub struct Truths {
    pub bytes: [u8; BYTES],
}

impl Entry for Truths {
    ghost hashed = { λ t. mixed t };

    ghost agrees = { alike_mixed };

    // The first bytes tell functions of few variables apart, and the others help with more. The weights add up to what 16 bits hold of 255 each.
    fn hash(&self) -> u16 {
        let low = u16::from(self.bytes[0]) + 64 * u16::from(self.bytes[1]);
        let high = 91 * u16::from(self.bytes[3]) + 101 * u16::from(self.bytes[BYTES - 1]);
        low + high
    }
}

impl Truths {
    // The table of f, of n variables.
    fn of<F: Fn(u32) -> bool>(n: u8, f: F) -> Truths
        requires few { n ≤ MOST }
        requires callable { F.IsAlwaysCallable f }
        ensures { (g : Fn) → Computes (2 ^ n) (F.post f) g → result ≡ table n g }
    {
        let size = 1 << n;
        Truths::packed(size, |w| w < size && f(w))
    }

    // The values of f, which is false from `size` on.
    fn packed<F: Fn(u32) -> bool>(size: u32, f: F) -> Truths
        requires callable { F.IsAlwaysCallable f }
        ensures { (g : Fn) → Computes (2 ^ MOST) (F.post f) g → EndsAt size g → result ≡ packed_truths g }
    {
        Truths {
            bytes: array::from_fn(|j| byte(size, &f, j)),
        }
    }

    // The truth at the valuation w; past the table it is false.
    pub(super) fn at(&self, w: u32) -> bool
        ensures { result ≡ truth self.now w }
    {
        let byte = self.bytes.get((w / 8) as usize).copied().unwrap_or(0);
        bit(u32::from(byte), (w % 8) as u8)
    }
}

// Byte j of those values. Past their end it is 0 without a call.
fn byte<F: Fn(u32) -> bool>(size: u32, f: &F, j: usize) -> u8
    requires below { j < BYTES }
    requires callable { F.IsAlwaysCallable f.now }
    ensures { (g : Fn) → Computes (2 ^ MOST) (F.post f.now) g → EndsAt size g → result ≡ packed 8 (8 * j) g }
{
    if 8 * j as u32 >= size {
        return 0;
    }
    let mut byte = 0;
    // A `for`: of a fold, `fold-requires-clause-callable` stayed open, that its closure may be called at each turn.
    for k in (0..8).rev() {
        byte = 2 * byte + u8::from(f(8 * j as u32 + k));
    }
    byte
}

// A function of few variables, as a store keeps it: a constant needs no table.
#[derive(Drop)]
pub(super) enum Form {
    Constant(bool),
    Mixed(Truths),
}

impl Form {
    // That of f, of n variables. No table is packed of a constant.
    pub(super) fn of<F: Fn(u32) -> bool>(n: u8, f: F) -> Form
        requires few { n ≤ MOST }
        requires callable { F.IsAlwaysCallable f }
        ensures { (g : Fn) → Computes (2 ^ n) (F.post f) g → FormOf n g result }
    {
        match constant(n, &f) {
            Some(t) => Form::Constant(t),
            None => Form::Mixed(Truths::of(n, f)),
        }
    }
}

// The constant that f is as a function of n variables, if it is one.
fn constant<F: Fn(u32) -> bool>(n: u8, f: &F) -> Option<bool>
    requires few { n ≤ MOST }
    requires callable { F.IsAlwaysCallable f.now }
    ensures { (g : Fn) → Computes (2 ^ n) (F.post f.now) g → Constant n g result }
{
    let first = f(0);
    (1..1 << n).all(|w| f(w) == first).then_some(first)
}
