// Receiving a recipe over the serial line: its text comes in parts, cut at any byte, into a lent buffer.
#![tactic(auto)]

mod receiving;

pub use receiving::{Receipt, begin, finish, take};
