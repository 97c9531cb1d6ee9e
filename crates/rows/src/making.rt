// Making the table: every line of a text that loads is found and judged once.
ghost use Rattle.std.specs.Prelude.{◌≡◌, ◌+◌, ◌*◌, ◌≤◌, length, Ok, Some};
ghost use Rattle.loader.specs.Loading.{load_of};
ghost use Rattle.rows.specs.bridge.Rows.{width, cells, verdict_of, Small, put, Tabled};

use crate::cells::Row;
use loader::{LineSpan, line_at};
use reader::{LineFault, judge};
use words::Place;

// The number of a judgement in the table.
fn verdict_of(judged: Result<bool, LineFault>) -> u16
    ensures { result ≡ verdict_of judged }
{
    match judged {
        Err(LineFault::Unreadable) => Row::UNREADABLE,
        Err(LineFault::TooDeep) => Row::TOO_DEEP,
        Ok(_) => Row::READS,
    }
}

// A line's row is written, number by number under the names of the columns.
fn put_row(rows: &mut [u16], row: usize, span: LineSpan, verdict: u16)
    requires { (1 + width * row + width ≤ length rows.old) × Small span }
    ensures { rows.new ≡ put rows.old row span verdict }
{
    let first = 1 + Row::WIDTH * row;
    rows[first + Row::NUMBER] = span.number.0;
    rows[first + Row::PLACE] = span.place.0 as u16;
    rows[first + Row::BODY] = span.body.0 as u16;
    rows[first + Row::END] = span.end.0 as u16;
    rows[first + Row::NEXT] = span.next.0 as u16;
    rows[first + Row::VERDICT] = verdict;
}

// The table of a text that loads.
pub fn make_rows(text: &[u8], rows: &mut [u16])
    requires { (load_of text.now ≡ Ok tt) × (length rows.old ≡ cells) }
    ensures { Tabled text.now rows.new }
{
    let mut at = Place(0);
    let mut row = 0;
    while let Some(span) = line_at(text, at) {
        let verdict = verdict_of(judge(&text[span.body.0..span.end.0]));
        put_row(rows, row, span, verdict);
        row += 1;
        at = span.next;
    }
    rows[0] = row as u16;
}
