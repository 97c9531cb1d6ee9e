// The lines of a text that loads as a table of numbers, made once a run: where each line is, whether it reads, and the line with a
// number or at a place.
#![tactic(auto)]

mod cells;
mod finding;
mod making;
mod table;
mod telling;

pub use cells::{Row, Rows, count_of};
pub use finding::{line_numbered, row_at};
pub use making::make_rows;
pub use table::LineTable;
pub use telling::{has_row, number_in, place_in, span_in, verdict_in};
