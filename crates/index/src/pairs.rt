// The pairs of a text, in text order: of each line that reads, the lines that it names, each once.
ghost use Rattle.std.specs.Prelude.{◌≡◌, List, [], ◌++◌, ℕ, ◌*◌, ◌-◌, ◌≤◌, ◌<◌, length, drop};
ghost use Rattle.loader.specs.Lines.{lines_of};
ghost use Rattle.grammar.specs.Trees.{Part};
ghost use Rattle.statements.specs.Parts.{statements_of};
ghost use Rattle.reader.specs.Lines.{holds, judgement};
ghost use Rattle.rows.specs.bridge.Rows.{count_of, Tabled};
ghost use Rattle.index.specs.Pairs.{Pair, with_named, named_by, pairs_with, pairs_of};
ghost use Rattle.index.specs.Index.{most_pairs, blank};
ghost use Rattle.index.specs.bridge.Noting.{named_among, pair_room, Held, NotedAs, Within, first_pairs};

use crate::making::Layout;
use checker::named_by;
use reader::next_statement;
use rows::{Row, Rows, count_of, span_in, verdict_in};
use statements::statement_at;
use words::{LineNumber, Place};

// Whether a line is named by a pair, from one pair on and before another.
fn is_noted(pairs: &[u16], from: usize, count: usize, named: u16) -> bool
    requires { (count ≤ most_pairs) × (length pairs.now ≡ pair_room) }
    ensures { result ≡ named_among named (count - from) (drop (2 * from) pairs.now) }
{
    for i in from..count {
        if pairs[2 * i] == named {
            return true;
        }
    }
    false
}

// What a statement names is noted, unless one of the line's pairs, those from `from` on, has it.
fn note(
    pairs: &mut [u16],
    from: usize,
    count: usize,
    own: u16,
    names: Option<LineNumber>,
) -> Option<usize>
    requires { (count ≤ most_pairs) × (length pairs.old ≡ pair_room) }
    ensures within { Within result }
    ensures noted_as { (done : List Pair) (seen : List ℕ) → from ≡ length done → Held pairs.old count (done ++ pairs_with own seen)
        → NotedAs result pairs.new (done ++ pairs_with own (with_named seen names)) }
{
    let Some(line) = names else {
        return Some(count);
    };
    let named = line.0;
    if is_noted(pairs, from, count, named) {
        return Some(count);
    }
    if Layout::MOST_PAIRS <= count {
        return None;
    }
    pairs[2 * count] = named;
    pairs[2 * count + 1] = own;
    Some(count + 1)
}

// The pairs of a line that reads.
fn note_line(line: &[u8], own: u16, pairs: &mut [u16], from: usize) -> Option<usize>
    requires { (from ≤ most_pairs) × (length pairs.old ≡ pair_room) }
    ensures within { Within result }
    ensures noted_as { (part : Part) (done : List Pair) → judgement line.now ≡ holds part → Held pairs.old from done
        → NotedAs result pairs.new (done ++ pairs_with own (named_by [] (statements_of part))) }
{
    let mut at = Place(0);
    let mut count = from;
    loop {
        let read = statement_at(line, at, true);
        count = note(pairs, from, count, own, named_by(read))?;
        let Some(next) = next_statement(read) else {
            return Some(count);
        };
        at = next;
    }
}

// The pairs of a row's line; one that does not read has none.
fn note_row(text: &[u8], rows: &Rows, row: Row, pairs: &mut [u16], count: usize) -> Option<usize>
    requires { Tabled text.now rows.now × (row.0 < count_of rows.now) × (count ≤ most_pairs) × (length pairs.old ≡ pair_room) }
    ensures within { Within result }
    ensures noted_as { (done : List Pair) → Held pairs.old count done
        → NotedAs result pairs.new (done ++ first_pairs (drop row.0 (lines_of text.now))) }
{
    if verdict_in(rows, row) != Row::READS {
        return Some(count);
    }
    let span = span_in(rows, row);
    note_line(&text[span.body.0..span.end.0], span.number.0, pairs, count)
}

// The pairs of all lines.
pub(crate) fn note_lines(text: &[u8], rows: &Rows, pairs: &mut [u16]) -> Option<usize>
    requires { Tabled text.now rows.now × (pairs.old ≡ blank pair_room) }
    ensures { NotedAs result pairs.new (pairs_of text.now) }
{
    let mut count = 0;
    for row in 0..count_of(rows) {
        count = note_row(text, rows, Row(row), pairs, count)?;
    }
    Some(count)
}
