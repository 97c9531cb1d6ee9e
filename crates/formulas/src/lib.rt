// Working out formulas over the variables and the lent string space.
#![tactic(auto)]

mod evaluating;
mod operands;

pub use evaluating::work_out;
