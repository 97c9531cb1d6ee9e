// The row with a number in a column whose numbers rise; so the line with a number, and the row of the line at a place.
ghost use Rattle.std.specs.Prelude.{◌≡◌, List, [], ℕ, ◌<◌, ◌≤◌, length, get_or};
ghost use Rattle.loader.specs.Lines.{find_line};
ghost use Rattle.loader.specs.Loading.{most_lines};
ghost use Rattle.rows.specs.bridge.Rows.{width, count_of, cell, Rises, Finds, Tabled};

use crate::cells::{Row, Rows, count_of};
use crate::table::LineTable;
use crate::telling::span_in;
use loader::LineSpan;
use words::{LineNumber, Place};

// The rows, each its numbers.
fn table_of(rows: &Rows) -> &[[u16; Row::WIDTH]]
    requires { count_of rows.now ≤ most_lines }
    ensures counts { length result.now ≡ count_of rows.now }
    ensures cells { (i k : ℕ) → i < count_of rows.now → k < width → get_or (get_or result.now i []) k 0 ≡ cell rows.now i k }
{
    let (table, _) = rows[1..].as_chunks();
    &table[..count_of(rows)]
}

// The row that has a number in a column.
pub(crate) fn row_with(rows: &Rows, column: usize, wanted: usize) -> Option<Row>
    requires { (column < width) × ((count_of rows.now ≤ most_lines) × Rises rows.now column) }
    ensures { Finds rows.now column wanted result }
{
    match table_of(rows).binary_search_by_key(&wanted, |row| usize::from(row[column])) {
        Ok(row) => Some(Row(row)),
        Err(_) => None,
    }
}

// The line with a number.
pub fn line_numbered(table: &LineTable, number: LineNumber) -> Option<LineSpan>
    ensures { (text : List ℕ) → Tabled text table.now.rows → result ≡ find_line text number }
{
    let row = row_with(&table.rows, Row::NUMBER, usize::from(number.0))?;
    Some(span_in(&table.rows, row))
}

// The row of the line that begins at a place.
pub fn row_at(table: &LineTable, place: Place) -> Option<Row>
    ensures { Finds table.now.rows 1 place.0 result }
{
    row_with(&table.rows, Row::PLACE, place.0)
}
