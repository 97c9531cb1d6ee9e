// The month's sheet: run records, one a line, taken in parts of any size, and their exact totals as lines.
#![tactic(auto)]

mod reports;
mod taking;

pub use reports::Report;
pub use taking::{Sheet, begin, finish, take};
