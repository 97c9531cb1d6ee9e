// The index beside a text: the table of its lines that a run goes by, and the pairs of a line that is named and a line that names it; made
// from the text, tested against it, and asked without it.
#![tactic(auto)]

mod asking;
mod layout;
mod making;
mod moves;
mod pairs;
mod tables;

pub use asking::{callers_in, line_in};
pub use making::{Index, Layout, index_of, is_index_of};
pub use tables::rows_by;
