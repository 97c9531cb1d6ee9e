// The items of a DATA statement, read by bytes and not by tokens.
#![tactic(auto)]

mod reading;

pub use reading::{Item, item_at};
