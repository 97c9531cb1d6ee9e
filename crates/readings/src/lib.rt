// Readings from the old machines: four bytes made a single or a double, and a file of them made lines.
#![tactic(auto)]

mod importing;
mod lines;
mod values;

pub use importing::import_readings;
pub use values::{Reading, reading_of};
