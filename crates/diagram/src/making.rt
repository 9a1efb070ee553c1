// How a diagram store is made: a check alone refuses, and the making never does.
ghost use Rattle.std.specs.Prelude.{◌≡◌, [], length, if◌then◌else◌};
ghost use Rattle.store.specs.Fitting.{fitting};
ghost use Rattle.store.specs.Meaning.{Fresh, Lawful};
ghost use Rattle.nodes.specs.Shows.{shown};
ghost use Rattle.diagram.specs.Shows.{showing, suits};

use super::Diagram;
use super::memo::Memo;
use nodes::Node;
use records::List;
use store::MOST_VARIABLES;
use store::fitting::{fit, fitted};
use store::refusal::Unfit;

// Whether a diagram store of n variables can be made in the records.
// n and the records are two parameters, since here the records are only looked at, and `new` takes them.
pub fn check(n: u8, records: &[Node]) -> Result<(), Unfit>
    ensures { result ≡ fitting (suits n (length records.now)) }
{
    fit(n, MOST_VARIABLES, records)
}

impl<'a> Diagram<'a> {
    // The empty diagrams of n variables in the records; of 1 variable in no records where the check refuses.
    // As many nodes as there are links are found at once, and later ones by a scan.
    pub fn new(n: u8, records: &'a mut [Node], links: &'a mut [u16]) -> Diagram<'a>
        ensures shows { showing result ≡ (if suits n (length records.old) then shown n [] (length records.old) else shown 1 [] 0) }
        ensures fresh { Fresh (showing result) }
        ensures lawful { Lawful (showing result) }
    {
        let (n, records) = fitted(n, MOST_VARIABLES, records);
        Diagram {
            n,
            nodes: List::new(records, links),
            memo: Memo::new(),
        }
    }
}
