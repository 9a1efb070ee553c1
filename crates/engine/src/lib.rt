// Sessions over any store.
#![tactic(auto)]

mod advance;
mod finding;
mod load;
pub mod questions;
pub mod search;
pub mod session;
mod settle;
pub mod settled;
mod stage;
pub mod step;
mod stepping;
mod trace;
