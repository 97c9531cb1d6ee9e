// The variable tables as the block of bytes that a host keeps between a run and its questions.
#![tactic(auto)]

mod layout;

pub use layout::{Block, tables_in, write_block};
