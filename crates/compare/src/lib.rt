// What differs between two editions of a recipe: a merge of their lines, and a record for each number that differs.
#![tactic(auto)]

mod comparing;
mod lines;
mod merging;
mod records;

pub use comparing::{Rejected, compare};
