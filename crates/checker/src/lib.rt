// The check: what a recipe is refused for before it ever runs.
#![tactic(auto)]

mod checking;

pub use checking::{Fault, check_recipe, named_by};
