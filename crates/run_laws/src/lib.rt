// The laws that recipe writers lean on, carried to every call of `run`, named in the contract of the one function here.
#![tactic(auto)]

mod holding;

pub use holding::run_laws_hold;
