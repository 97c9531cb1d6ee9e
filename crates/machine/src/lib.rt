// What a run has besides the memory that is lent.
#![tactic(auto)]

mod loops;
mod positions;
mod printing;
mod records;
mod sought;
mod state;
mod taking;

pub use loops::passed;
pub use positions::{Next, Position, Turned};
pub use printing::{write, write_comma};
pub use records::{Record, Sought, is_sought, passes};
pub use sought::sought_record;
pub use state::{Feed, Machine, Printer};
pub use taking::take_line;
