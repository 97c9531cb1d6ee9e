// Functions: their arguments taken, and what they make of them.
#![tactic(auto)]

mod arguments;
mod calling;

pub use arguments::{Taken, take_argument};
pub use calling::called;
