// The rows of a text's lines, where numbers and places rise: so a line is found by a binary search.
ghost use Rattle.rows.specs.bridge.Rows.{Ordered};

use crate::cells::Rows;

// A run fills the rows in place, and has shown their order when it lends the table.
#[derive(Drop)]
pub struct LineTable {
    pub rows: Rows,
    pub ghost ordered: { Ordered rows },
}
