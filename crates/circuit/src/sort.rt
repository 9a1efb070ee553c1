/// What a circuit has several of: the sizes of a file and the names of a claim are of one of these.
/// Its number is the place of its size in a circuit file, which a refusal for sizes tells.
#[derive(Clone, Copy, PartialEq, Eq, Debug)]
pub enum Sort {
    Register = 0,
    Input = 1,
    Gate = 2,
}
