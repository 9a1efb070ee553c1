// A list of entries in lent records: an entry is found, or added at the end, or there is no room.
// An entry at a place that has a link is found by its hash, and one at a later place by a scan.
#![tactic(auto)]

ghost use Rattle.std.specs.Prelude.{◌≡◌, ◌%◌, [], length, take, position};
ghost use Rattle.std.specs.Option.{option_map};
ghost use Rattle.std.specs.List.{slice_get};
ghost use Rattle.records.specs.Chains.{buckets};
ghost use Rattle.records.specs.Contents.{entries, room};
ghost use Rattle.records.specs.Orderly.{filed};
ghost use Rattle.records.specs.Placing.{Among, Finds, Places};

pub mod entry;
mod index;
mod list;

use entry::Entry;
use index::{BUCKETS, Index};
pub use list::List;

// No record is left.
#[derive(Clone, Copy, PartialEq, Eq, Debug)]
pub struct Full;

// The lowest place of an equal entry.
fn position<T: Entry>(entries: &[T], item: &T) -> Option<usize>
    ensures { result ≡ position (λ entry. T.PartialEq.eq entry item.now) entries.now }
{
    entries.iter().position(|entry| entry == item)
}

impl<'a, T: Entry> List<'a, T> {
    // The empty list in these records, whatever the links hold.
    pub fn new(records: &'a mut [T], links: &'a mut [u16]) -> List<'a, T>
        ensures empty { entries result ≡ [] }
        ensures room { room result ≡ length records.old }
    {
        List {
            records,
            used: 0,
            index: Index::new(links),
        }
    }

    // How many entries there can be.
    pub fn capacity(&self) -> usize
        ensures { result ≡ room self.now }
    {
        self.records.len()
    }

    // How many entries there are.
    pub fn len(&self) -> usize
        ensures { result ≡ length (entries self.now) }
    {
        self.used
    }

    // The entries.
    fn as_slice(&self) -> &[T]
        ensures { result.now ≡ entries self.now }
    {
        &self.records[..self.used]
    }

    // The entry at place i.
    pub fn get(&self, i: usize) -> Option<&T>
        ensures { option_map (λ x. x.now) result ≡ slice_get (entries self.now) i }
    {
        self.as_slice().get(i)
    }

    // Only the first `kept` entries stay.
    #[cold]
    pub fn truncate(&mut self, kept: usize)
        ensures entries { entries self.new ≡ take kept (entries self.old) }
        ensures room { room self.new ≡ room self.old }
    {
        self.used = self.used.min(kept);
        self.index.truncate(kept);
    }

    // How many of the entries are on chains.
    fn filed(&self) -> usize
        ensures { result ≡ filed (entries self.now) self.now.index }
    {
        self.index.limit().min(self.len())
    }

    // The place of an equal entry that is on the chain of its bucket.
    #[inline(always)]
    fn on_chain(&self, item: &T, bucket: usize) -> Option<usize>
        requires { bucket ≡ T.Entry.hashed item.now % buckets }
        ensures { Among T.PartialEq.eq (entries self.now) item.now 0 (filed (entries self.now) self.now.index) result }
    {
        let mut at = self.index.first(bucket);
        while at > 0 {
            if self.as_slice()[at - 1] == *item {
                return Some(at - 1);
            }
            at = self.index.next(at);
        }
        None
    }

    // The place of an equal entry that is past those on chains.
    #[inline(always)]
    fn past_chains(&self, item: &T) -> Option<usize>
        ensures { let xs = entries self.now in
            Among T.PartialEq.eq xs item.now (filed xs self.now.index) (length xs) result }
    {
        let filed = self.filed();
        let place = position(&self.as_slice()[filed..], item)?;
        Some(filed + place)
    }

    // The lowest place of an equal entry.
    #[inline(always)]
    fn place(&self, item: &T, bucket: usize) -> Option<usize>
        requires { bucket ≡ T.Entry.hashed item.now % buckets }
        ensures { Finds T.PartialEq.eq (entries self.now) item.now result }
    {
        if let Some(place) = self.on_chain(item, bucket) {
            return Some(place);
        }
        self.past_chains(item)
    }

    // The lowest place of an equal entry; else the entry is added at the end, if a record is left.
    // Inlined with what it calls, since an entry that is passed goes through memory.
    #[inline(always)]
    pub fn find_or_add(&mut self, item: T) -> Result<usize, Full>
        ensures { Places self.old item result self.new }
    {
        let bucket = usize::from(item.hash()) % BUCKETS;
        if let Some(place) = self.place(&item, bucket) {
            return Ok(place);
        }
        let end = self.len();
        if end >= self.records.len() {
            return Err(Full);
        }
        self.records[end] = item;
        self.used = end + 1;
        if end < self.index.limit() {
            self.index.file(end, bucket);
        }
        Ok(end)
    }
}

#[cfg(test)]
mod tests;
