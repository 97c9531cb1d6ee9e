// Running a recipe.
#![tactic(auto)]

mod going;
mod lending;
mod running;
mod standing;

pub use lending::{run, run_lent, run_with};
pub use running::{Done, Outcome, Ran, is_refused};
