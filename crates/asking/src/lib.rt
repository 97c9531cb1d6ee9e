// Asking for one variable after a run.
#![tactic(auto)]

mod questions;

pub use questions::{Asked, ask};
