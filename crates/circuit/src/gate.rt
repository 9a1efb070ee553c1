ghost use Rattle.std.specs.Prelude.{◌≡◌, ◌&&◌, false, nat_lt, slice_index_or};
ghost use Rattle.circuit.specs.Lines.{either};

use super::literal::Literal;
use copy_list::Blank;

// The and of two literals.
#[derive(Clone, Copy, Default, PartialEq, Eq, Debug)]
pub struct Gate {
    pub left: Literal,
    pub right: Literal,
}

// By hand, since a clause says which it is, and of a default the library says less.
impl Blank for Gate {
    ghost use Rattle.circuit.specs.Netlists.{blank};

    ghost blank = { blank };

    fn blank() -> Gate {
        Gate::default()
    }
}

impl Gate {
    // Whether both literals name lines below `line`.
    pub(crate) fn names_below(self, line: usize) -> bool
        ensures { result ≡ (nat_lt self.left.line line && nat_lt self.right.line line) }
    {
        usize::from(self.left.line()) < line && usize::from(self.right.line()) < line
    }

    // Whether one of the literals names a line that is marked.
    pub(crate) fn names_marked(self, marks: &[bool]) -> bool
        ensures { result ≡ either (λ x. slice_index_or marks.now x false) self }
    {
        let marked = |literal: Literal| {
            let line = usize::from(literal.line());
            marks.get(line).copied().unwrap_or(false)
        };
        marked(self.left) || marked(self.right)
    }
}
