// A function is made from its halves by its first variable: the low one, then the high one, then the node over both.
ghost use Rattle.std.specs.Prelude.{◌+◌, ◌<◌, Bool, None, length};
ghost use Rattle.nodes.specs.Graph.{child, top, value};
ghost use Rattle.nodes.specs.Growth.{choose};
ghost use Rattle.diagram.specs.Shows.{listed, showing};
ghost use Rattle.store.specs.Tasks.{Posed};
ghost use Rattle.diagram.specs.Making.{Making, Makes, Settled};

use super::Diagram;
use super::kinds::{Apply, Complement, Expand, Restrict};
use super::operator::{Conjunction, Disjunction};
use nodes::Node;
use records::Full;
use store::task::{Op, Task};

impl Diagram<'_> {
    // The number of the function over a node's children.
    #[inline(always)]
    fn join(&mut self, node: Node) -> Result<u16, Full>
        requires below { node.variable < self.old.n }
        requires held { (t : Bool) → child node t < length (listed self.old) + 2 }
        requires under { (t : Bool) → node.variable < top self.old.n (listed self.old) (child node t) }
        ensures { Making self.old self.new node.variable (choose node.variable (λ t. value (listed self.old) (child node t))) result }
    {
        if node.low == node.high {
            return Ok(node.low);
        }
        Ok(self.nodes.find_or_add(node)? as u16 + 2)
    }

    // The number of the function that a task of one kind asks for. Inlined, so that no call is spent where it is there at once.
    #[cycle(descent)]
    #[inline(always)]
    fn number<T: Expand>(&mut self, kind: T) -> Result<u16, Full>
        requires { Posed (showing self.old) (T.asks kind) }
        ensures { Makes self.old (T.asks kind) result self.new }
    {
        match kind.at_once(self) {
            Some(number) => Ok(number),
            None => self.descend(kind),
        }
    }

    // The same where it is not.
    #[cycle(descent)]
    fn descend<T: Expand>(&mut self, kind: T) -> Result<u16, Full>
        requires posed { Posed (showing self.old) (T.asks kind) }
        requires unsettled { Settled self.old (T.asks kind) None }
        ensures { Makes self.old (T.asks kind) result self.new }
    {
        let task = kind.task();
        if let Some(number) = self.memo.lookup(task) {
            return Ok(number);
        }
        let (variable, off, on) = kind.expand(self);
        let low = self.number(off)?;
        let high = self.number(on)?;
        let number = self.join(Node {
            variable,
            low,
            high,
        })?;
        self.memo.remember(task, number);
        Ok(number)
    }

    // The number of the function that the task asks for. Inlined into each call, where its kind is known.
    #[inline(always)]
    pub(super) fn make(&mut self, task: Task) -> Result<u16, Full>
        requires { Posed (showing self.old) task }
        ensures { Makes self.old task result self.new }
    {
        match task {
            Task::Variable(i) => self.join(Node {
                variable: i,
                low: 0,
                high: 1,
            }),
            Task::Not(a) => self.number(Complement { a }),
            Task::Both(op, a, b) => match op {
                Op::And => self.number(Apply {
                    op: Conjunction,
                    a,
                    b,
                }),
                Op::Or => self.number(Apply {
                    op: Disjunction,
                    a,
                    b,
                }),
            },
            Task::Cofactor(a, i, t) => self.number(Restrict { a, i, t }),
        }
    }
}
