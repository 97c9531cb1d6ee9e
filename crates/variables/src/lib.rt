// The variables in their tables and their strings in the lent space: looking up, assignment.
#![tactic(auto)]

mod assigning;
mod tables;
mod values;

pub use assigning::clean_up;
pub use tables::{NameTable, Numbers, Strings, Tables, offset_of, slot_of};
pub use values::{Worked, answered, has_room, mismatch, text_length};
