// What a store says of its size.
#[derive(Clone, Copy, PartialEq, Eq, Debug)]
pub struct Figures {
    pub variables: u8,
    pub used: u32,
    pub capacity: u32,
    pub top_price: u32,
}
