// Exact moves of bytes in a lent slice.
#![tactic(auto)]

mod moves;
mod offsets;

pub use moves::{clear_from, copy_in, fits, move_bytes};
pub use offsets::Offset;
