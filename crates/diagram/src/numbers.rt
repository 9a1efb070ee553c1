// What a diagram knows of its size and of its function numbers.
ghost use Rattle.std.specs.Prelude.{◌≡◌, ◌+◌, ◌^◌, ◌<◌, ◌≤◌, length};
ghost use Rattle.std.specs.Option.{option_map};
ghost use Rattle.store.specs.Meaning.{Lawful};
ghost use Rattle.nodes.specs.Graph.{node_under, value};
ghost use Rattle.diagram.specs.Operands.{operand, half};
ghost use Rattle.diagram.specs.Shows.{listed, capacity, showing};

use super::Diagram;
use nodes::Node;

// A number with its node, which is read once. A number that has none has a leaf here, with the number of variables for
// its variable and the number itself for its children.
#[derive(Clone, Copy)]
pub(super) struct Operand {
    number: u16,
    node: Node,
}

impl Operand {
    // The variable on top.
    pub(super) fn top(self) -> u8
        ensures { result ≡ self.node.variable }
    {
        self.node.variable
    }

    // The number where a variable that it has not below its top is fixed to t.
    pub(super) fn half(self, variable: u8, t: bool) -> u16
        ensures { result ≡ half self variable t }
    {
        if self.node.variable == variable {
            self.node.child(t)
        } else {
            self.number
        }
    }
}

impl Diagram<'_> {
    pub(super) fn used(&self) -> u32
        ensures { result ≡ length (listed self.now) }
    {
        self.nodes.len() as u32
    }

    pub(super) fn capacity(&self) -> u32
        ensures { result ≡ capacity self.now }
    {
        self.nodes.capacity() as u32
    }

    // The number of valuations.
    pub(super) fn valuations(&self) -> u32
        ensures count { result ≡ 2 ^ self.now.n }
        ensures lawful { Lawful (showing self.now) }
    {
        1 << self.n
    }

    // The node of a number, and none for a constant, which wraps to past every place, and for one that is not held.
    // Lent: a walk down a diagram that copied each node, and tested that its variable has a bit, took twice the time.
    fn node(&self, a: u16) -> Option<&Node>
        ensures { option_map (λ x. x.now) result ≡ node_under (listed self.now) a }
    {
        let place = usize::from(a).wrapping_sub(2);
        self.nodes.get(place)
    }

    pub(super) fn operand(&self, a: u16) -> Operand
        ensures { result ≡ operand self.now.n (listed self.now) a }
    {
        let leaf = Node {
            variable: self.n,
            low: a,
            high: a,
        };
        Operand {
            number: a,
            node: self.node(a).copied().unwrap_or(leaf),
        }
    }

    // The truth of a at the valuation w.
    pub(super) fn truth(&self, a: u16, w: u32) -> bool
        ensures { result ≡ value (listed self.now) a w }
    {
        let mut at = a;
        while let Some(node) = self.node(at) {
            at = node.child((w >> node.variable) % 2 == 1);
        }
        at == 1
    }
}
