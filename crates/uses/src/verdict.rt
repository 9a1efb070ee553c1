// What a search has come to.
#[derive(Clone, Copy, PartialEq, Eq, Debug)]
pub enum Verdict {
    // Nothing is loaded.
    Empty,
    Open,
    Safe,
    // With its depth.
    Unsafe(u16),
}
