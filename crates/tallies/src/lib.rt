// Exact totals of run records, taken one after the other.
#![tactic(auto)]

mod counting;

pub use counting::{Count, RefusedRecord, Tally, with_record};
