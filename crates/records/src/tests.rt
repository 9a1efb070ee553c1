// A list of entries that have less than nodes and tables have: two that are equal can differ, none is copied, and
// there is no hash.
ghost use Rattle.std.specs.Prelude.{refl};

use crate::entry::Entry;
use crate::{Full, List};

// Slips are equal if their keys are, whatever their notes.
#[derive(Drop)]
#[derive_where(PartialEq, Eq)]
struct Slip {
    key: u8,
    #[derive_where(skip(EqHashOrd))]
    note: u8,
}

impl Entry for Slip {
    ghost agrees = { λ _ _ _. refl };

    fn hash(&self) -> u16 {
        0
    }
}

impl Slip {
    fn new(key: u8, note: u8) -> Slip {
        Slip { key, note }
    }
}

// Over 3 records and 2 links, so that the last place is found by a scan.
#[test]
fn an_equal_entry_is_found_and_stays(rt: HostRuntime) {
    let mut records = [Slip::new(9, 0), Slip::new(9, 1), Slip::new(9, 2)];
    let mut links = [7, 7];
    let mut list = List::new(&mut records, &mut links);
    let calls = [
        (1, 10, Ok(0)),
        (2, 20, Ok(1)),
        (1, 11, Ok(0)),
        (3, 30, Ok(2)),
        (3, 31, Ok(2)),
        (2, 21, Ok(1)),
        (9, 90, Err(Full)),
        (1, 12, Ok(0)),
    ];
    for (key, note, answer) in calls {
        assert_eq!(rt;
            list.find_or_add(Slip::new(key, note)),
            answer,
            "{key} {note}"
        );
    }
    let notes = [0, 1, 2, 3].map(|i| list.get(i).map(|entry| entry.note));
    assert_eq!(rt; notes, [Some(10), Some(20), Some(30), None]);
}
