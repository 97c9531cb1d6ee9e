// Which statement comes next: IF, GOTO, GOSUB, RETURN, FOR and NEXT.
#![tactic(auto)]

mod branching;
mod jumping;
mod leading;
mod looping;
mod skipping;

pub use branching::choose;
pub use jumping::come_back;
pub use leading::{call, count, jump, next_loop};
