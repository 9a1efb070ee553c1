// Why a call of a store is refused.
#[derive(Clone, Copy, PartialEq, Eq, Debug)]
pub enum Refusal {
    // The price exceeds the free units, which it holds.
    Room(u32),
    // A function number is not held.
    Number,
    // A variable or a valuation is out of range.
    Variable,
}

// Why a store or a layer cannot be made as asked, each with its number.
#[derive(Clone, Copy, PartialEq, Eq, Debug)]
pub enum Unfit {
    // The list does not hold each variable once.
    Order = 18,
    // The variables are out of the make's range, or the records too many.
    Store = 19,
}
