// The kinds of tasks that are made by Shannon's expansion: from their halves by the first variable, which are of the same kind.
// A type for each kind, and no enum: a descent stays in its kind, which need not be asked for at each step.
ghost use Rattle.std.specs.Prelude.{◌≡◌, None, true, false};
ghost use Rattle.store.specs.declared.task.Task.{Task};
ghost use Rattle.store.specs.declared.task.Task.TheVariants.{Not, Both, Cofactor};
ghost use Rattle.store.specs.Tasks.{Posed};
ghost use Rattle.diagram.specs.Asked.{peak};
ghost use Rattle.diagram.specs.Making.{Settled, HalvedTask};
ghost use Rattle.diagram.specs.Shows.{listed, showing};

use super::Diagram;
use super::operator::{Operator, by_sides};
use store::task::Task;

pub(super) trait Expand: Copy {
    // Which task it is.
    ghost asks: { Self → Task };

    fn task(self) -> Task
        ensures { result ≡ asks self };

    // The number of the function where a constant or the fixed variable gives it.
    // Each step asks that the task is posed: a type that says so would hold the diagram, which grows between the halves.
    fn at_once(self, diagram: &Diagram) -> Option<u16>
        requires { Posed (showing diagram.now) (asks self) }
        ensures { Settled diagram.now (asks self) result };

    // The first variable that the function may depend on, and the halves where it is false and where it is true.
    // Each kind writes both out: a closure over the truth would need clauses of its own, and more lines.
    fn expand(self, diagram: &Diagram) -> (u8, Self, Self)
        requires posed { Posed (showing diagram.now) (asks self) }
        requires unsettled { Settled diagram.now (asks self) None }
        ensures first { result.0 ≡ peak diagram.now.n (listed diagram.now) (asks self) }
        ensures low { HalvedTask diagram.now (asks self) result.0 false (asks result.1) }
        ensures high { HalvedTask diagram.now (asks self) result.0 true (asks result.2) };
}

// Not a.
#[derive(Clone, Copy)]
pub(super) struct Complement {
    pub a: u16,
}

impl Expand for Complement {
    ghost asks = { λ x. Not x.a };

    fn task(self) -> Task {
        Task::Not(self.a)
    }

    fn at_once(self, _diagram: &Diagram) -> Option<u16> {
        1u16.checked_sub(self.a)
    }

    fn expand(self, diagram: &Diagram) -> (u8, Self, Self) {
        let a = diagram.operand(self.a);
        let variable = a.top();
        let off = a.half(variable, false);
        let on = a.half(variable, true);
        (variable, Complement { a: off }, Complement { a: on })
    }
}

// a and b under an operator.
#[derive(Clone, Copy)]
pub(super) struct Apply<O: Operator> {
    pub op: O,
    pub a: u16,
    pub b: u16,
}

impl<O: Operator> Expand for Apply<O> {
    ghost asks = { λ x. Both O.OP x.a x.b };

    fn task(self) -> Task {
        Task::Both(O::OP, self.a, self.b)
    }

    fn at_once(self, _diagram: &Diagram) -> Option<u16> {
        by_sides(O::OP, self.a, self.b)
    }

    fn expand(self, diagram: &Diagram) -> (u8, Self, Self) {
        let op = self.op;
        let a = diagram.operand(self.a);
        let b = diagram.operand(self.b);
        let variable = a.top().min(b.top());
        let off = Apply {
            op,
            a: a.half(variable, false),
            b: b.half(variable, false),
        };
        let on = Apply {
            op,
            a: a.half(variable, true),
            b: b.half(variable, true),
        };
        (variable, off, on)
    }
}

// a with variable i fixed to t.
#[derive(Clone, Copy)]
pub(super) struct Restrict {
    pub a: u16,
    pub i: u8,
    pub t: bool,
}

impl Expand for Restrict {
    ghost asks = { λ x. Cofactor x.a x.i x.t };

    fn task(self) -> Task {
        Task::Cofactor(self.a, self.i, self.t)
    }

    fn at_once(self, diagram: &Diagram) -> Option<u16> {
        let a = diagram.operand(self.a);
        // An `if`: of `then_some`, `returns` stayed open.
        if self.i <= a.top() {
            Some(a.half(self.i, self.t))
        } else {
            None
        }
    }

    fn expand(self, diagram: &Diagram) -> (u8, Self, Self) {
        let a = diagram.operand(self.a);
        let variable = a.top();
        let off = Restrict {
            a: a.half(variable, false),
            ..self
        };
        let on = Restrict {
            a: a.half(variable, true),
            ..self
        };
        (variable, off, on)
    }
}
