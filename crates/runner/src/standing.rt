// Where a run stands: at a statement of a line, which it knows by the line's row in the table, or it is over.
ghost use Rattle.std.specs.Prelude.{◌<◌, drop};
ghost use Rattle.loader.specs.Lines.{lines_of};
ghost use Rattle.rows.specs.bridge.Rows.{count_of, span_in};
ghost use Rattle.machine.specs.bridge.Holding.{position_of, Positioned};
ghost use Rattle.runner.specs.Run as run;
ghost use Rattle.runner.specs.bridge.Standings.{StandsIn, RowOf, GoesTo, next_of};

use crate::running::Outcome;
use machine::{Next, Position};
use rows::{LineTable, Row, has_row, number_in, place_in, row_at, verdict_in};
use whole::Error;
use words::Place;

#[derive(Clone, Copy)]
pub enum Standing {
    At(Row, Place),
    Over(Outcome),
}

// A line is judged whole when it is entered from its start: the table has how. After the last line the run has ended.
pub(crate) fn entered(table: &LineTable, row: Row) -> Standing
    ensures { StandsIn table.now.rows result (λ text. Unit {0}) (λ text m. run.entering m (drop row.0 (lines_of text))) }
{
    if !has_row(&table.rows, row) {
        return Standing::Over(Outcome::Ended);
    }
    let verdict = verdict_in(&table.rows, row);
    if verdict == Row::READS {
        return Standing::At(row, Place(0));
    }
    let number = number_in(&table.rows, row);
    if verdict == Row::TOO_DEEP {
        return Standing::Over(Outcome::Failed(Error::FormulaTooComplex, number));
    }
    Standing::Over(Outcome::Failed(Error::Syntax, number))
}

// The row of a line of the text: most often that of the line being done.
fn row_of(table: &LineTable, row: Row, line: Place) -> Row
    requires { row.0 < count_of table.now.rows }
    ensures { RowOf table.now.rows line result }
{
    if place_in(&table.rows, row) == line {
        return row;
    }
    row_at(table, line).unwrap_or(row)
}

// What is left of a line, or the next line.
fn onward(table: &LineTable, row: Row, position: Position) -> Standing
    requires { row.0 < count_of table.now.rows }
    ensures { StandsIn table.now.rows result (λ text. Positioned text position)
        (λ text m. run.onward m (position_of text position).lines (position_of text position).rest) }
{
    let here = row_of(table, row, position.line);
    if position.over {
        return entered(table, Row(here.0 + 1));
    }
    Standing::At(here, position.at)
}

// Where a run stands after a statement of the line of a row.
pub(crate) fn following(table: &LineTable, row: Row, next: Next) -> Standing
    requires { row.0 < count_of table.now.rows }
    ensures { StandsIn table.now.rows result (λ text. GoesTo text next)
        (λ text m. run.following (span_in table.now.rows row.0).number (next_of text next m)) }
{
    match next {
        Next::On(position) => onward(table, row, position),
        Next::Enter(place) => entered(table, row_of(table, row, place)),
        Next::Ends => Standing::Over(Outcome::Ended),
        Next::Stops => Standing::Over(Outcome::Stopped(number_in(&table.rows, row))),
        Next::Fails(error) => Standing::Over(Outcome::Failed(error, number_in(&table.rows, row))),
    }
}
