// GOTO, GOSUB, FOR and NEXT, from the token after the word on.
ghost use Rattle.std.specs.Prelude.{◌≡◌, List, ℕ, ◌≤◌, length, Option};
ghost use Rattle.machine.specs.bridge.Holding.{state_of, Settled, Sound};
ghost use Rattle.turns.specs.bridge.Turns.{turn_of, FoundBelow};
ghost use Rattle.order.specs.bridge.Walking.{Lined};
ghost use Rattle.rows.specs.bridge.Rows.{Tabled};
ghost use Rattle.words.specs.declared.symbols.Word.TheVariants as led;
ghost use Rattle.statements.specs.Statements.{by_word};
ghost use Rattle.turns.specs.bridge.Doing.{Begins, Does};
ghost use Rattle.words.specs.Places.{longest_line};
ghost use Rattle.variables.specs.declared.tables.Tables.{Tables};

use crate::jumping::{gosub, goto};
use crate::looping::{for_loop, next_turn};
use grammar::line_of;
use machine::{Machine, Record, Turned};
use rows::LineTable;
use scanner::token_at;
use turns::fails;
use variables::Tables;
use whole::Error;
use words::{Kind, Place, Scanned, Token};

// A name, the equals sign and what is counted through.
pub fn count(
    text: &[u8],
    line: &[u8],
    here: Place,
    at: Place,
    target: Scanned,
    machine: Machine,
    tables: &mut Tables,
    found: Option<usize>,
    space: &mut [u8],
) -> Turned
    requires { Begins (by_word line.now led.For target) × ((length line.now ≤ longest_line) × (Settled (state_of machine tables.old) space.old × (FoundBelow machine.depth found × Lined text.now here.0))) }
    ensures does { (input room : List ℕ) (entry : Record) → Sound (state_of machine tables.old) input space.old room
        → Does text.now line.now here at.0 (state_of machine tables.old) found entry input space.old room (turn_of result tables.new) space.new room (by_word line.now led.For target) }
    ensures kept { tables.new.strings ≡ tables.old.strings }
{
    let token = target.token;
    let equals = token_at(line, target.next);
    match token {
        Token::Named(name) => for_loop(
            text, line, here, at, name, equals, machine, tables, found, space,
        ),
        _ => fails(machine, Error::Syntax),
    }
}

// A string name is 13, tested first.
pub fn next_loop(
    line: &[u8],
    here: Place,
    target: Scanned,
    machine: Machine,
    tables: &mut Tables,
    found: Option<usize>,
    entry: Record,
) -> Turned
    requires { FoundBelow machine.depth found }
    ensures does { (text input space room : List ℕ) (at : ℕ) → Sound (state_of machine tables.old) input space room
        → Does text line.now here at (state_of machine tables.old) found entry input space room
        (turn_of result tables.new) space room (by_word line.now led.Next target) }
    ensures kept { (tables.new.strings ≡ tables.old.strings) × ((tables.new.numbers.names ≡ tables.old.numbers.names) × (tables.new.numbers.count ≡ tables.old.numbers.count)) }
{
    let token = target.token;
    match token {
        Token::Named(name) => {
            let kind = name.kind;
            match kind {
                Kind::Text => fails(machine, Error::TypeMismatch),
                Kind::Whole => next_turn(
                    here,
                    token_at(line, target.next),
                    machine,
                    tables,
                    found,
                    entry,
                ),
            }
        }
        _ => next_turn(here, target, machine, tables, found, entry),
    }
}

pub fn jump(table: &LineTable, target: Scanned, machine: Machine) -> Turned
    ensures { (text line input space room : List ℕ) (tables : Tables) (here : Place) (at : ℕ) (found : Option ℕ) (entry : Record) → Tabled text table.now.rows
        → Sound (state_of machine tables) input space room
        → Does text line here at (state_of machine tables) found entry input space room
        (turn_of result tables) space room (by_word line led.Goto target) }
{
    let token = target.token;
    match line_of(token) {
        None => fails(machine, Error::Syntax),
        Some(number) => goto(table, number, machine),
    }
}

pub fn call(
    table: &LineTable,
    line: &[u8],
    here: Place,
    target: Scanned,
    machine: Machine,
) -> Turned
    ensures { (text input space room : List ℕ) (tables : Tables) (at : ℕ) (found : Option ℕ) (entry : Record) → Tabled text table.now.rows
        → Sound (state_of machine tables) input space room
        → Does text line.now here at (state_of machine tables) found entry input space room
        (turn_of result tables) space room (by_word line.now led.Gosub target) }
{
    let token = target.token;
    match line_of(token) {
        None => fails(machine, Error::Syntax),
        Some(number) => gosub(table, number, here, token_at(line, target.next), machine),
    }
}
