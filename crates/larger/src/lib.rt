// That more string space does not change a run, named in the contract of the one function here.
#![tactic(auto)]

mod holding;

pub use holding::more_space_holds;
