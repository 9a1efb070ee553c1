ghost use Rattle.std.specs.Prelude.{◌≤◌, length, take};
ghost use Rattle.records.specs.Orderly.{Orderly};

use crate::entry::Entry;
use crate::index::Index;

// The first `used` of the records are in use. A slice with a length beside it, and no vector: a store's memory is lent to it.
// The links are lent beside the records, and no field of them: by the rule there may be fewer, and later places are scanned.
#[derive(Drop)]
pub struct List<'a, T: Entry> {
    pub(crate) records: &'a mut [T],
    pub(crate) used: usize,
    pub(crate) index: Index<'a>,
    ghost within: { used ≤ length records.now },
    ghost orderly: { ∥ Orderly T.PartialEq.eq T.Entry.hashed (take used records.now) index ∥₁ },
}
