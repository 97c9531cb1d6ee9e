// GOTO, GOSUB and RETURN.
ghost use Rattle.std.specs.Prelude.{◌≡◌, List, ℕ, None, Some};
ghost use Rattle.grammar.specs.Trees as tree;
ghost use Rattle.machine.specs.Machine as spec;
ghost use Rattle.machine.specs.bridge.Holding.{state_of, position_of, Positioned, Sound};
ghost use Rattle.machine.specs.Machine.{is_call};
ghost use Rattle.machine.specs.bridge.Wanted.{Told};
ghost use Rattle.rows.specs.bridge.Rows.{Tabled};
ghost use Rattle.turns.specs.Steps.{do_statement};
ghost use Rattle.turns.specs.bridge.Turns.{turn_of, after_of, Turns, AnyRecords, FoundBelow};
ghost use Rattle.loader.specs.declared.lines.LineSpan.{LineSpan};
ghost use Rattle.control.specs.bridge.Answers.{calling_of};
ghost use Rattle.variables.specs.declared.tables.Tables.{Tables};

use loader::LineSpan;
use machine::{Machine, Next, Record, Turned};
use rows::{LineTable, line_numbered};
use turns::{after, fails, push, turned_to};
use whole::Error;
use words::{LineNumber, Place, Scanned};

// A missing line is 8.
pub fn goto(table: &LineTable, number: LineNumber, machine: Machine) -> Turned
    ensures { (text input space room : List ℕ) (tables : Tables) (at : ℕ) (after : spec.Position) → Tabled text table.now.rows
        → Sound (state_of machine tables) input space room
        → Turns text (state_of machine tables) input space room AnyRecords
        (λ n. do_statement text at (tree.goto number) n after) (turn_of result tables) space room }
{
    match line_numbered(table, number) {
        None => fails(machine, Error::UndefinedLine),
        Some(span) => {
            let place = span.place;
            turned_to(machine, Next::Enter(place))
        }
    }
}

// What becomes of a GOSUB: its line is missing, or no record is left, or it goes there.
#[derive(Clone, Copy)]
pub enum Calling {
    NoLine,
    NoRecord,
    Goes,
}

// The line is tested before room for a record.
fn called(found: Option<LineSpan>, full: bool) -> Calling
    ensures { result ≡ calling_of found full }
{
    match found {
        None => Calling::NoLine,
        Some(_) => if full {
            Calling::NoRecord
        } else {
            Calling::Goes
        },
    }
}

// Where a line begins that was found.
fn place_of(found: Option<LineSpan>) -> Place
    ensures { (span : LineSpan) → found ≡ Some span → result ≡ span.place }
{
    match found {
        None => Place(0),
        Some(span) => span.place,
    }
}

pub fn gosub(
    table: &LineTable,
    number: LineNumber,
    here: Place,
    ahead: Scanned,
    machine: Machine,
) -> Turned
    ensures { (text input space room : List ℕ) (tables : Tables) (at : ℕ) → Tabled text table.now.rows
        → Sound (state_of machine tables) input space room
        → Positioned text (after_of here ahead)
        → Turns text (state_of machine tables) input space room AnyRecords
        (λ n. do_statement text at (tree.gosub number) n (position_of text (after_of here ahead)))
        (turn_of result tables) space room }
{
    let full = machine.records <= machine.depth;
    let found = line_numbered(table, number);
    match called(found, full) {
        Calling::NoLine => fails(machine, Error::UndefinedLine),
        Calling::NoRecord => fails(machine, Error::OutOfMemory),
        Calling::Goes => {
            let held = Record::calls(after(here, ahead));
            push(machine, held, Next::Enter(place_of(found)))
        }
    }
}

// Records are dropped through the nearest GOSUB's.
pub fn come_back(machine: Machine, found: Option<usize>, entry: Record) -> Turned
    requires { FoundBelow machine.depth found }
    ensures { (text input space room : List ℕ) (tables : Tables) (at : ℕ) (after : spec.Position) → Sound (state_of machine tables) input space room
        → Turns text (state_of machine tables) input space room (Told text tables.numbers.names is_call machine.depth found entry)
        (λ n. do_statement text at tree.return n after) (turn_of result tables) space room }
{
    match found {
        None => fails(machine, Error::ReturnWithoutGosub),
        Some(slot) => {
            let mut m = machine;
            m.depth = slot;
            turned_to(m, Next::On(entry.back()))
        }
    }
}
