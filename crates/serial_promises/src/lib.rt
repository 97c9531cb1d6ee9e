// What receiving a recipe over the serial line promises, as statements about every call of its functions, named in the contract of the one function here.
#![tactic(auto)]

mod holding;

pub use holding::receipts_hold;
