// A circuit file, what its inputs may be assumed to do, and what must never happen, as they came.
#[derive(Clone, Copy)]
pub struct Source<'a> {
    pub circuit: &'a [u8],
    pub assumption: &'a [u8],
    pub property: &'a [u8],
}
