// RESTORE, and DATA when a run comes to it.
ghost use Rattle.std.specs.Prelude.{◌≡◌, List, ℕ, None, Option, Some};
ghost use Rattle.words.specs.declared.symbols.Word.TheVariants as led;
ghost use Rattle.grammar.specs.Trees as tree;
ghost use Rattle.statements.specs.Statements.{by_word, led_by};
ghost use Rattle.machine.specs.bridge.Holding.{state_of, position_of, Positioned, Sound};
ghost use Rattle.machine.specs.declared.records.Record.{Record};
ghost use Rattle.rows.specs.bridge.Rows.{Tabled};
ghost use Rattle.turns.specs.Steps.{do_statement};
ghost use Rattle.turns.specs.bridge.Doing.{Does};
ghost use Rattle.turns.specs.bridge.Turns.{turn_of, after_of, Turns, AnyRecords, with_feed};
ghost use Rattle.variables.specs.declared.tables.Tables.{Tables};

use grammar::line_of;
use machine::{Feed, Machine, Turned};
use rows::{LineTable, line_numbered};
use scanner::token_at;
use statements::{Lead, StatementRead, statement_led};
use turns::{fails, goes_on};
use whole::Error;
use words::{LineNumber, Place, Scanned};

fn with_feed(machine: Machine, feed: Feed) -> Machine
    ensures { (tables : Tables) → state_of result tables ≡ with_feed (state_of machine tables) feed }
{
    let mut next = machine;
    next.feed = feed;
    next
}

// The items from a line on; a missing line is 8.
fn restore_to(
    table: &LineTable,
    number: LineNumber,
    here: Place,
    ahead: Scanned,
    machine: Machine,
) -> Turned
    ensures { (text input space room : List ℕ) (tables : Tables) (at : ℕ) → Tabled text table.now.rows
        → Sound (state_of machine tables) input space room → Positioned text (after_of here ahead)
        → Turns text (state_of machine tables) input space room AnyRecords
        (λ n. do_statement text at (tree.restore_to number) n (position_of text (after_of here ahead))) (turn_of result tables) space room }
{
    match line_numbered(table, number) {
        None => fails(machine, Error::UndefinedLine),
        Some(span) => {
            let place = span.place;
            goes_on(with_feed(machine, Feed::from_line(place)), here, ahead)
        }
    }
}

// All items again, or those from a line on.
pub fn restore(
    table: &LineTable,
    line: &[u8],
    here: Place,
    from: Scanned,
    machine: Machine,
) -> Turned
    ensures { (text input space room : List ℕ) (tables : Tables) (at : ℕ) (found : Option ℕ) (entry : Record) → Tabled text table.now.rows
        → Sound (state_of machine tables) input space room
        → Does text line.now here at (state_of machine tables) found entry input space room (turn_of result tables) space room
        (by_word line.now led.Restore from) }
{
    let token = from.token;
    match line_of(token) {
        None => goes_on(with_feed(machine, Feed::from_line(Place(0))), here, from),
        Some(number) => restore_to(table, number, here, token_at(line, from.next), machine),
    }
}

// DATA does nothing: the run goes on after its items.
pub fn pass(line: &[u8], here: Place, lead: Option<Lead>, machine: Machine) -> Turned
    ensures { (text input space room : List ℕ) (tables : Tables) (at : ℕ) (found : Option ℕ) (entry : Record) (word : Scanned)
        → lead ≡ led_by led.Data word → Sound (state_of machine tables) input space room
        → Does text line.now here at (state_of machine tables) found entry input space room (turn_of result tables) space room
        (by_word line.now led.Data word) }
{
    match statement_led(line, lead) {
        None => fails(machine, Error::Syntax),
        Some(read) => match read {
            StatementRead::Done(own) => goes_on(machine, here, own.ahead),
            StatementRead::Choice(_) => fails(machine, Error::Syntax),
        },
    }
}
