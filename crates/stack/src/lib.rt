// The records that FOR, GOSUB and WHILE leave, in a slice that the host lends: thin functions over it. What decides takes and gives
// records by value.
#![tactic(auto)]

mod seeking;
mod slots;

pub use seeking::find;
pub use slots::{at, blank, is_too_long, put, wipe};
