// The layout of the table: how many rows there are, then six numbers a row. It is numbers alone, since an index that C lends begins with it.
ghost use Rattle.std.specs.Prelude.{◌≡◌, ◌<◌};
ghost use Rattle.loader.specs.Loading.{most_lines};
ghost use Rattle.rows.specs.bridge.Rows.{width, cell, count_of};

use loader::Recipe;

// A row by its number, counted from 0.
#[derive(Clone, Copy)]
pub struct Row(pub usize);

impl Row {
    // The columns.
    pub(crate) const NUMBER: usize = 0;

    pub(crate) const PLACE: usize = 1;

    pub(crate) const BODY: usize = 2;

    pub(crate) const END: usize = 3;

    pub(crate) const NEXT: usize = 4;

    pub(crate) const VERDICT: usize = 5;

    pub const WIDTH: usize = 6;

    pub const CELLS: usize = 1 + Row::WIDTH * Recipe::MOST_LINES;

    // The verdicts: a line reads, or it has the number of its error. A table that no text made may hold any number.
    pub const READS: u16 = 0;

    pub const UNREADABLE: u16 = 2;

    pub const TOO_DEEP: u16 = 16;
}

pub type Rows = [u16; Row::CELLS];

// How many rows there are.
pub fn count_of(rows: &Rows) -> usize
    ensures { result ≡ count_of rows.now }
{
    usize::from(rows[0])
}

// What a row has in a column.
pub(crate) fn word_in(rows: &Rows, row: usize, column: usize) -> u16
    requires { (row < most_lines) × (column < width) }
    ensures { result ≡ cell rows.now row column }
{
    rows[1 + (Row::WIDTH * row + column)]
}

pub(crate) fn cell_in(rows: &Rows, row: usize, column: usize) -> usize
    requires { (row < most_lines) × (column < width) }
    ensures { result ≡ cell rows.now row column }
{
    usize::from(word_in(rows, row, column))
}
