// What a row tells of its line.
ghost use Rattle.std.specs.Prelude.{◌≡◌, ◌<◌, ltb};
ghost use Rattle.loader.specs.Loading.{most_lines};
ghost use Rattle.rows.specs.bridge.Rows.{count_of, span_in, verdict_in};

use crate::cells::{Row, Rows, cell_in, count_of, word_in};
use loader::LineSpan;
use words::{LineNumber, Place};

// Whether there is such a row.
pub fn has_row(rows: &Rows, row: Row) -> bool
    ensures { result ≡ ltb row.0 (count_of rows.now) }
{
    row.0 < count_of(rows)
}

// The span of its line.
pub fn span_in(rows: &Rows, row: Row) -> LineSpan
    requires { row.0 < most_lines }
    ensures { result ≡ span_in rows.now row.0 }
{
    let at = row.0;
    LineSpan {
        number: LineNumber(word_in(rows, at, Row::NUMBER)),
        place: Place(cell_in(rows, at, Row::PLACE)),
        body: Place(cell_in(rows, at, Row::BODY)),
        end: Place(cell_in(rows, at, Row::END)),
        next: Place(cell_in(rows, at, Row::NEXT)),
    }
}

// The number of its line.
pub fn number_in(rows: &Rows, row: Row) -> LineNumber
    requires { row.0 < most_lines }
    ensures { result ≡ (span_in rows.now row.0).number }
{
    LineNumber(word_in(rows, row.0, Row::NUMBER))
}

// Where its line begins.
pub fn place_in(rows: &Rows, row: Row) -> Place
    requires { row.0 < most_lines }
    ensures { result ≡ (span_in rows.now row.0).place }
{
    Place(cell_in(rows, row.0, Row::PLACE))
}

// How its line was judged.
pub fn verdict_in(rows: &Rows, row: Row) -> u16
    requires { row.0 < most_lines }
    ensures { result ≡ verdict_in rows.now row.0 }
{
    word_in(rows, row.0, Row::VERDICT)
}
