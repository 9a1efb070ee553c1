// Lists of at most so many entries that lie in the value itself and are copied with it.
#![tactic(auto)]

ghost use Rattle.std.specs.Prelude.{◌≡◌, ◌<◌, ◌≤◌, ◌↔◌, [], ◌∷◌, ◌++◌, length, IsOk, IsSome, IfSome, OnOk, OnErr};

use std::alloc::AllocError;
use std::marker::Model;

/// A kind of entry that is copied, with a blank one to stand where a list has none.
pub trait Blank: Copy {
    ghost blank: { Self };

    fn blank() -> Self
        ensures { result ≡ blank };
}

impl Blank for u16 {
    ghost blank = { 0 };

    fn blank() -> u16 {
        0
    }
}

/// A list has as many entries as it can hold.
#[derive(Clone, Copy, PartialEq, Eq, Debug)]
pub struct Full;

/// A list of at most `MOST` entries, which allocates nothing and, unlike the library's `ArrayVec`, is copied.
// Past its end each place holds the blank entry, so that lists with the same entries are the same.
#[derive(Copy)]
pub struct CopyList<T: Blank, const MOST: usize> {
    places: [T; MOST],
    count: usize,
}

impl<T: Blank, const MOST: usize> Model for CopyList<T, MOST> {
    ghost use Rattle.std.specs.Prelude.{◌≡◌, ◌-◌, ◌++◌, length, take, replicate};
    ghost use Rattle.std.proofs.Common.{arith, sym, ap, ◌∙◌};
    ghost use Rattle.std.proofs.lemmas.List.{take-append-drop, length-take};
    ghost use Rattle.copy_list.specs.Lists.{Listed, Filled, listed_code};

    ghost Value = { Listed T };

    ghost coded = { listed_code T.code };

    ghost view = { λ l. record { items = take l.count l.places } };

    ghost invariant = { λ l. Filled MOST T.Blank.blank l.count l.places };

    ghost inverse = { λ l. record {
      places = l.items ++ replicate (MOST - length l.items) T.Blank.blank;
      count = length l.items;
    } };

    ghost inverse_ok = { λ l h.
        let count : length (take l.count l.places) ≡ l.count = Prim.grind (arith, length-take, h.0, h.1) in
        let places : take l.count l.places ++ replicate (MOST - length (take l.count l.places)) T.Blank.blank ≡ l.places =
        ap (λ k. take l.count l.places ++ replicate (MOST - k) T.Blank.blank) count
        ∙ ap (λ xs. take l.count l.places ++ xs) (sym h.2)
        ∙ take-append-drop l.count l.places in
        λ i. record { places = places i; count = count i } };
}

// By hand: a derive clones each place, and of that nothing is known but what the kind of entry says.
impl<T: Blank, const MOST: usize> Clone for CopyList<T, MOST> {
    ghost use Rattle.std.specs.Prelude.{⊤, ◌≡◌};

    ghost is_clone = { λ l m. m ≡ l };

    ghost is_infallible = { λ l. ⊤ };

    fn clone(&self) -> Result<Self, AllocError> {
        Ok(*self)
    }
}

impl<T: Blank, const MOST: usize> CopyList<T, MOST> {
    /// The list with no entry.
    pub fn new() -> CopyList<T, MOST>
        ensures { result.items ≡ [] }
    {
        CopyList {
            places: [T::blank(); MOST],
            count: 0,
        }
    }

    /// The list of these entries, if they are at most `MOST`.
    pub fn of(entries: &[T]) -> Option<CopyList<T, MOST>>
        ensures fits { IsSome result ↔ (length entries.now ≤ MOST) }
        ensures items { IfSome result (λ list. list.items ≡ entries.now) }
    {
        if entries.len() > MOST {
            return None;
        }
        let mut places = [T::blank(); MOST];
        places[..entries.len()].copy_from_slice(entries);
        Some(CopyList {
            places,
            count: entries.len(),
        })
    }

    /// Adds an entry at the end, if there are fewer than `MOST`; else the list stays as it is.
    pub fn push(&mut self, entry: T) -> Result<(), Full>
        ensures room { IsOk result ↔ (length self.old.items < MOST) }
        ensures added { OnOk result (self.new.items ≡ self.old.items ++ entry ∷ []) }
        ensures same { OnErr result (self.new ≡ self.old) }
    {
        if self.count == MOST {
            return Err(Full);
        }
        self.places[self.count] = entry;
        self.count += 1;
        Ok(())
    }

    /// How many entries there are.
    pub fn len(&self) -> usize
        ensures items { result ≡ length self.now.items }
        ensures few { result ≤ MOST }
    {
        self.count
    }

    /// The entries, in order.
    pub fn as_slice(&self) -> &[T]
        ensures items { result.now ≡ self.now.items }
        ensures few { length result.now ≤ MOST }
    {
        let all = &self.places[..];
        &all[..self.count]
    }
}
