// A store that keeps each function as the table of its truths, one record a function.
#![tactic(auto)]

ghost use Rattle.std.specs.Prelude.{◌≡◌, ◌≤◌, true, [], length, if◌then◌else◌};
ghost use Rattle.std.specs.Option.{option_map};
ghost use Rattle.records.specs.Contents.{entries, room};
ghost use Rattle.store.specs.Fitting.{fitting};
ghost use Rattle.store.specs.declared.fitting.TheConstants.{MOST_RECORDS};
ghost use Rattle.store.specs.Meaning.{Fresh, Lawful};
ghost use Rattle.table.specs.declared.TheConstants.{MOST};
ghost use Rattle.table.specs.Records.{RecordOf, record_at};
ghost use Rattle.table.specs.Shows.{shown, showing, sound, suits};

mod making;
pub mod truths;

use records::List;
use store::Store;
use store::figures::Figures;
use store::fitting::{fit, fitted};
use store::refusal::{Refusal, Unfit};
use store::task::{Task, check_value};
use truths::Truths;

// Number 0 is false, 1 is true, and k + 2 is the function of record k.
#[derive(Drop)]
pub struct Table<'a> {
    n: u8,
    list: List<'a, Truths>,
    ghost some: { 1 ≤ n },
    ghost few: { n ≤ MOST },
    ghost small: { room list ≤ MOST_RECORDS },
    ghost apart: { sound n (entries list) ≡ true },
}

// The most variables of a table store.
const MOST: u8 = 10;

// Whether a table store of n variables can be made in the records.
// n and the records are two parameters, since here the records are only looked at, and `new` takes them.
pub fn check(n: u8, records: &[Truths]) -> Result<(), Unfit>
    ensures { result ≡ fitting (suits n (length records.now)) }
{
    fit(n, MOST, records)
}

impl<'a> Table<'a> {
    // An empty store of n variables in the records; of 1 variable and no records, where these do not suit.
    // As many tables as there are links are found at once, and later ones by a scan.
    pub fn new(n: u8, records: &'a mut [Truths], links: &'a mut [u16]) -> Table<'a>
        ensures shows { showing result.n result.list ≡ (if suits n (length records.old) then shown n [] (length records.old) else shown 1 [] 0) }
        ensures fresh { Fresh (showing result.n result.list) }
        ensures lawful { Lawful (showing result.n result.list) }
    {
        let (n, records) = fitted(n, MOST, records);
        Table {
            n,
            list: List::new(records, links),
        }
    }

    /// The record of the function under a number. A constant has none, nor has a number that is not held.
    pub fn record(&self, a: u16) -> Option<&Truths>
        ensures told { RecordOf (showing self.now.n self.now.list) a (option_map (λ x. x.now) result) }
        ensures place { option_map (λ x. x.now) result ≡ record_at (entries self.now.list) a }
    {
        let place = usize::from(a).checked_sub(2)?;
        self.list.get(place)
    }

    // How many functions were made.
    fn made(&self) -> usize
        ensures { result ≡ length (entries self.now.list) }
    {
        self.list.len()
    }
}

impl Store for Table<'_> {
    ghost shows = { λ d. showing d.n d.list };

    fn answer(&mut self, task: Task) -> Result<u16, Refusal> {
        task.check(self.made(), self.n)?;
        self.make(task)
    }

    // Each make says this: said once, the trait would need the truth of any number, held or not, and that numbers are held in a row.
    fn value(&mut self, a: u16, w: u32) -> Result<bool, Refusal> {
        check_value(a, w, self.made(), self.n)?;
        Ok(self.truth(a, w))
    }

    // Each make counts its own records, and has its own top price.
    fn figures(&mut self) -> Figures {
        Figures {
            variables: self.n,
            used: self.list.len() as u32,
            capacity: self.list.capacity() as u32,
            top_price: 1,
        }
    }
}
