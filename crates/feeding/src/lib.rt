// DATA, READ and RESTORE.
#![tactic(auto)]

mod reading;
mod restoring;
mod taking;

pub use reading::read;
pub use restoring::{pass, restore};
