// What a claim is read into.
pub use circuit::sort::Sort;

// What a code does to a stack: it puts a value on top, or an operator takes its operands from there.
// The default is first, so that room is filled with it by bytes 0.
#[derive(Clone, Copy, PartialEq, Eq, Debug, Default)]
pub enum Act {
    #[default]
    Not,
    And,
    Or,
    Constant(bool),
    Name(Sort, u16),
}

// An act and the byte of the text that it comes from. The default fills room that is not in use.
#[derive(Clone, Copy, PartialEq, Eq, Debug, Default)]
pub struct Code {
    pub act: Act,
    pub place: u16,
}
