// What is promised of the check and the run together: a run of what the check has passed. The demands and why they hold are in
// specs/ and proofs/.
#![tactic(auto)]

mod guarding;
mod holding;

pub use guarding::{CheckedRun, run_checked};
pub use holding::demands_hold;
