// That no run of a bounded recipe takes more steps than its bound, named in the contract of the one function here.
#![tactic(auto)]

mod holding;

pub use holding::bounds_hold;
