// How a statement ends, formulas worked out with the machine, and assignment: what all statements are made of.
#![tactic(auto)]

mod setting;
mod turning;

pub use setting::{set, stored_or_full, with_string};
pub use turning::{after, fails, goes_on, push, turned_to, value};
