// A run record read from a line of the month's sheet.
#![tactic(auto)]

mod reading;

pub use reading::{Outcome, Run, record_of};
