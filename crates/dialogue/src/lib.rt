// What a run says and is told: PRINT and LINE INPUT.
#![tactic(auto)]

mod inputting;
mod outputting;

pub use inputting::line_input;
pub use outputting::print;
