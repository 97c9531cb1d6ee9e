// What a line means: every statement of it read, the line judged, and the parts of an IF found in it.
#![tactic(auto)]

mod branches;
mod lines;
mod walking;

pub use branches::{else_of, next_statement};
pub use lines::{LineFault, judge};
