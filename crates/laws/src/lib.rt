// The laws that recipe writers lean on, of what formulas come to, named in the contract of the one function here.
#![tactic(auto)]

mod holding;

pub use holding::laws_hold;
