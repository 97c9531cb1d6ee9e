// Two-sided operators over values.
#![tactic(auto)]

mod applying;

pub use applying::{joined, turn_of};
