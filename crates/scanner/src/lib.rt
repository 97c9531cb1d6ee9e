// The token at a place of a line, and the runs of bytes that tokens are made of.
#![tactic(auto)]

mod runs;
mod tokens;

pub use runs::{Run, run_end};
pub use tokens::token_at;
