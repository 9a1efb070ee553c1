// Whether a store can be made.
ghost use Rattle.std.specs.Prelude.{◌≡◌, ◌≤◌, true, [], length, if◌then◌else◌};
ghost use Rattle.store.specs.Fitting.{fits, fitting};

use super::refusal::Unfit;

// A number is of 16 bits, and two are of constants.
pub const MOST_RECORDS: usize = 65534;

// Whether a store of n variables, of at most `most`, can be made over the records.
pub fn fit<T>(n: u8, most: u8, records: &[T]) -> Result<(), Unfit>
    ensures { result ≡ fitting (fits n most (length records.now)) }
{
    if (1..=most).contains(&n) && records.len() <= MOST_RECORDS {
        Ok(())
    } else {
        Err(Unfit::Store)
    }
}

// n and the records, where a store can be made of them; else 1 variable and no records, of which one always can.
pub fn fitted<T>(n: u8, most: u8, records: &mut [T]) -> (u8, &mut [T])
    ensures variables { result.0 ≡ (if fits n most (length records.old) then n else 1) }
    ensures records { result.1.now ≡ (if fits n most (length records.old) then records.old else []) }
    ensures same { fits n most (length records.old) ≡ true → result.1.ghost_name ≡ records.entry.ghost_name }
    ensures fit { 1 ≤ most → fits result.0 most (length result.1.now) ≡ true }
{
    if fit(n, most, records).is_ok() {
        (n, records)
    } else {
        (1, &mut [])
    }
}
