// Makes the functions of a circuit and its claims in any store.
#![tactic(auto)]

mod claims;
pub mod fault;
mod gates;
mod inputs;
mod laws;
mod lines;
mod load;
mod negations;
pub mod parts;
mod places;
mod start;
mod step;
mod substitution;
mod variables;

pub use laws::{lists_are_held, lists_are_short};
pub use load::build;
pub use places::place_at;
pub use step::back;

// The number of false in every store. A make writes 0 and 1, since it counts with them.
pub const FALSE: u16 = 0;
