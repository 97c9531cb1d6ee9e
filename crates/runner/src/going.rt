// A run on its way, beside the lent stack of records.
ghost use Rattle.std.specs.Prelude.{◌≡◌};
ghost use Rattle.space.specs.Moves.{cleared};
ghost use Rattle.loader.specs.Lines.{lines_of};
ghost use Rattle.machine.specs.bridge.Holding.{fresh_machine, state_of};
ghost use Rattle.runner.specs.Run as run;
ghost use Rattle.runner.specs.bridge.Standings.{Rowed, StandsIn};
ghost use Rattle.runner.specs.bridge.Acting.{goes_of, StandsAt, AsksAt, Ready, ActsAt};
ghost use Rattle.runner.specs.bridge.Endings.{outcome_of, done_as};

use crate::running::{Done, Outcome};
use crate::standing::{Standing, entered, following};
use machine::{Machine, Record, Sought, sought_record};
use rows::{LineTable, Row, number_in, span_in};
use statements::{Lead, lead_at};
use steps::do_statement;
use variables::{Numbers, Tables, clean_up};

#[derive(Clone, Copy)]
pub struct Going {
    pub machine: Machine,
    pub standing: Standing,
}

// How a statement is led, and the record that it asks for.
#[derive(Clone, Copy)]
pub struct Asked {
    pub lead: Option<Lead>,
    pub sought: Sought,
}

// The record that was found, or a blank one.
#[derive(Clone, Copy)]
pub struct Lookup {
    pub found: Option<usize>,
    pub entry: Record,
}

// The run after a statement, and the record that is written; a slot past the last writes none.
#[derive(Clone, Copy)]
pub struct Acted {
    pub going: Going,
    pub slot: usize,
    pub held: Record,
}

// The run at its first line.
pub(crate) fn begins(table: &LineTable, records: usize) -> Going
    ensures { (result.machine ≡ fresh_machine records)
        × StandsIn table.now.rows result.standing (λ text. Unit {0}) (λ text m. run.entering m (lines_of text)) }
{
    let machine = Machine::fresh(records);
    let standing = entered(table, Row(0));
    Going { machine, standing }
}

// Whether a step is made.
pub(crate) fn goes(going: Going, budget: u32) -> bool
    ensures { result ≡ goes_of going.standing going.machine.steps budget }
{
    matches!(going.standing, Standing::At(_, _)) && going.machine.steps < budget
}

// What the statement asks for.
pub(crate) fn asks(text: &[u8], table: &LineTable, going: Going, numbers: &Numbers) -> Asked
    requires { StandsAt text.now table.now.rows going.standing }
    ensures { AsksAt text.now table.now.rows numbers.now going.standing result }
{
    let Standing::At(row, at) = going.standing else {
        return Asked {
            lead: None,
            sought: Sought::Nothing,
        };
    };
    let span = span_in(&table.rows, row);
    let line = &text[span.body.0..span.end.0];
    let lead = lead_at(line, at, true);
    let sought = sought_record(line, span.place, at, lead, numbers);
    Asked { lead, sought }
}

// The statement is done, and counts one step when begun.
pub(crate) fn act(
    text: &[u8],
    table: &LineTable,
    going: Going,
    tables: &mut Tables,
    asked: Asked,
    lookup: Lookup,
    input: &[u8],
    space: &mut [u8],
    room: &mut [u8],
) -> Acted
    requires { StandsAt text.now table.now.rows going.standing
        × (AsksAt text.now table.now.rows tables.old.numbers going.standing asked
        × Ready text.now (state_of going.machine tables.old) lookup input.now space.old room.old) }
    ensures { ActsAt text.now table.now.rows going.standing (state_of going.machine tables.old) asked lookup input.now space.old room.old result
        (state_of result.going.machine tables.new) space.new room.new }
{
    let Standing::At(row, at) = going.standing else {
        return Acted {
            going,
            slot: Machine::RECORDS,
            held: Record::blank(),
        };
    };
    let span = span_in(&table.rows, row);
    let mut begun = going.machine;
    begun.steps += 1;
    let turned = do_statement(
        text,
        table,
        &text[span.body.0..span.end.0],
        span.place,
        at,
        asked.lead,
        begun,
        tables,
        lookup.found,
        lookup.entry,
        input,
        space,
        room,
    );
    let standing = following(table, row, turned.next);
    Acted {
        going: Going {
            machine: turned.machine,
            standing,
        },
        slot: turned.slot,
        held: turned.held,
    }
}

// How a run ends that makes no further step.
fn outcome_of(table: &LineTable, standing: Standing) -> Outcome
    requires { Rowed table.now.rows standing }
    ensures { result ≡ outcome_of table.now.rows standing }
{
    match standing {
        Standing::Over(outcome) => outcome,
        Standing::At(row, _) => Outcome::Out(number_in(&table.rows, row)),
    }
}

// What it answers: the strings' bytes are left in the space, and zeros after them.
pub(crate) fn told(table: &LineTable, going: Going, space: &mut [u8]) -> Done
    requires { Rowed table.now.rows going.standing }
    ensures { (result ≡ done_as (outcome_of table.now.rows going.standing) going.machine)
        × (space.new ≡ cleared space.old going.machine.used.0) }
{
    let machine = going.machine;
    let outcome = outcome_of(table, going.standing);
    clean_up(space, machine.used);
    Done {
        outcome,
        steps: machine.steps,
        written: machine.printer.written,
        taken: machine.taken.0,
    }
}
