// What an operator gives where a side is constant, or both sides are the same.
ghost use Rattle.store.specs.declared.task.Op.{Op};
ghost use Rattle.store.specs.declared.task.Op.TheVariants.{And, Or};
ghost use Rattle.diagram.specs.Plain.{Plain};

use store::task::Op;

// An operator as a type, so that a descent is compiled for each.
pub trait Operator: Copy {
    ghost OP: { Op };

    const OP: Op;
}

#[derive(Clone, Copy)]
pub struct Conjunction;

#[derive(Clone, Copy)]
pub struct Disjunction;

impl Operator for Conjunction {
    ghost OP = { And };

    const OP: Op = Op::And;
}

impl Operator for Disjunction {
    ghost OP = { Or };

    const OP: Op = Op::Or;
}

// The number of the result where a side gives it: an absorbing one, the other of a neutral one, or each of two that are the same.
pub fn by_sides(op: Op, a: u16, b: u16) -> Option<u16>
    ensures { Plain op a b result }
{
    let absorbing = match op {
        Op::And => 0,
        Op::Or => 1,
    };
    let neutral = 1 - absorbing;
    if a == b || a == absorbing || b == neutral {
        Some(a)
    } else if b == absorbing || a == neutral {
        Some(b)
    } else {
        None
    }
}
