// The diagram store: functions as reduced ordered diagrams, in node records that are handed to it, variable 0 on top.
#![tactic(auto)]

ghost use Rattle.std.specs.Prelude.{◌≤◌};
ghost use Rattle.records.specs.Contents.{entries, room};
ghost use Rattle.store.specs.declared.TheConstants.{MOST_VARIABLES};
ghost use Rattle.store.specs.declared.fitting.TheConstants.{MOST_RECORDS};
ghost use Rattle.nodes.specs.Graph.{Sound};
ghost use Rattle.diagram.specs.Remembered.{Right};

mod answer;
pub mod calls;
mod descent;
pub mod facts;
mod kinds;
pub mod making;
mod memo;
mod numbers;
mod operator;

use memo::Memo;
use nodes::Node;
use records::List;

// Diagrams of n variables.
#[derive(Drop)]
pub struct Diagram<'a> {
    n: u8,
    nodes: List<'a, Node>,
    memo: Memo,
    ghost some: { 1 ≤ n },
    ghost wide: { n ≤ MOST_VARIABLES },
    ghost small: { room nodes ≤ MOST_RECORDS },
    ghost sound: { ∥ Sound n (entries nodes) ∥₁ },
    ghost remembered: { ∥ Right n (entries nodes) (room nodes) memo ∥₁ },
}
