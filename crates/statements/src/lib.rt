// The readers of statements.
#![tactic(auto)]

mod leading;
mod reading;

pub use leading::{Lead, lead_at};
pub use reading::{Own, StatementRead, statement_at, statement_led};
