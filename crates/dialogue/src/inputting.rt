// LINE INPUT.
ghost use Rattle.std.specs.Prelude.{◌≡◌, List, ℕ, ◌-◌, ◌≤◌, length, take, drop};
ghost use Rattle.grammar.specs.Trees as tree;
ghost use Rattle.grammar.specs.Trees.{Variable};
ghost use Rattle.grammar.specs.Formulas.{after};
ghost use Rattle.statements.specs.Statements.{done, variable_of, target_at, input_at};
ghost use Rattle.machine.specs.bridge.Holding.{state_of, position_of, Positioned, Fitting, Sound};
ghost use Rattle.machine.specs.Machine.{longest_input_line};
ghost use Rattle.turns.specs.Steps.{do_statement};
ghost use Rattle.turns.specs.bridge.Turns.{turn_of, after_of, Turns, AnyRecords};
ghost use Rattle.dialogue.specs.bridge.Asking.{Asks, Laid, takes_line, fills_in};

use crate::outputting::with_printer;
use machine::{Machine, Turned, take_line, write};
use scanner::token_at;
use space::copy_in;
use turns::{fails, stored_or_full, with_string};
use variables::{Tables, has_room};
use whole::Error;
use words::{Kind, Name, Place, Scanned, Token};

// A line that was taken makes a string; its room is asked for before the variable's type is looked at.
fn fill(
    line: &[u8],
    here: Place,
    name: Name,
    ahead: Scanned,
    machine: Machine,
    tables: &mut Tables,
    bytes: &[u8],
    space: &mut [u8],
) -> Turned
    requires { Laid machine tables.old.strings.lengths space.old × (length bytes.now ≤ longest_input_line) }
    ensures does { (text input room : List ℕ) → Sound (state_of machine tables.old) input space.old room → Positioned text (after_of here ahead)
        → Turns text (state_of machine tables.old) input space.old room AnyRecords
        (fills_in (variable_of line.now name) bytes.now (position_of text (after_of here ahead))) (turn_of result tables.new) space.new room }
    ensures kept { tables.new.numbers ≡ tables.old.numbers }
{
    let used = machine.used;
    let kind = name.kind;
    let len = bytes.len();
    if !has_room(space, used, len) {
        return fails(machine, Error::OutOfStringSpace);
    }
    copy_in(space, used, bytes);
    match kind {
        Kind::Whole => fails(machine, Error::TypeMismatch),
        Kind::Text => stored_or_full(
            machine,
            with_string(machine, tables, line, name, space, len),
            here,
            ahead,
        ),
    }
}

// A line of input is taken, and the variable is set to it.
fn take_in(
    line: &[u8],
    here: Place,
    name: Name,
    ahead: Scanned,
    machine: Machine,
    tables: &mut Tables,
    input: &[u8],
    space: &mut [u8],
) -> Turned
    requires { Laid machine tables.old.strings.lengths space.old }
    ensures does { (text room : List ℕ) → Sound (state_of machine tables.old) input.now space.old room → Positioned text (after_of here ahead)
        → Turns text (state_of machine tables.old) input.now space.old room AnyRecords
        (takes_line (variable_of line.now name) (position_of text (after_of here ahead))) (turn_of result tables.new) space.new room }
    ensures kept { tables.new.numbers ≡ tables.old.numbers }
{
    let from = machine.taken;
    match take_line(input, from) {
        Err(error) => fails(machine, error),
        Ok(extent) => {
            let start = from.0;
            let end = extent.end.0;
            let next = extent.next;
            let mut m = machine;
            m.taken = next;
            fill(
                line,
                here,
                name,
                ahead,
                m,
                tables,
                &input[start..end],
                space,
            )
        }
    }
}

// The text is printed, making no string; then a line of input is taken.
fn prompt(
    line: &[u8],
    here: Place,
    text: &[u8],
    target: Scanned,
    machine: Machine,
    tables: &mut Tables,
    input: &[u8],
    space: &mut [u8],
    room: &mut [u8],
) -> Turned
    requires { Laid machine tables.old.strings.lengths space.old × Fitting machine.printer room.old }
    ensures does { (program : List ℕ) (at : ℕ) (v : Variable) (u : Scanned) → Sound (state_of machine tables.old) input.now space.old room.old
        → Positioned program (after_of here u)
        → target_at line.now text.now target ≡ done (tree.line_input text.now v) u
        → Turns program (state_of machine tables.old) input.now space.old room.old AnyRecords
        (λ n. do_statement program at (tree.line_input text.now v) n (position_of program (after_of here u))) (turn_of result tables.new) space.new room.new }
    ensures kept { tables.new.numbers ≡ tables.old.numbers }
{
    let Some(printer) = write(machine.printer, room, text) else {
        return fails(machine, Error::OutputFull);
    };
    let m = with_printer(machine, printer);
    let token = target.token;
    match token {
        Token::Named(name) => take_in(
            line,
            here,
            name,
            token_at(line, target.next),
            m,
            tables,
            input,
            space,
        ),
        _ => fails(m, Error::Syntax),
    }
}

// What LINE INPUT asks: where the text to print stands in its line, and the token of the variable.
#[derive(Clone, Copy)]
pub struct Query {
    pub from: Place,
    pub end: Place,
    pub target: Scanned,
}

// A semicolon stands between the text and the variable.
fn after_text(line: &[u8], quoted: Scanned) -> Scanned
    ensures { result ≡ after line.now (after line.now quoted) }
{
    let semicolon = token_at(line, quoted.next);
    token_at(line, semicolon.next)
}

// After INPUT comes a quoted text and a semicolon, or the variable at once.
fn asked_at(line: &[u8], first: Scanned) -> Query
    requires { Asks line.now first }
    ensures { (result.from.0 ≤ result.end.0) × ((result.end.0 ≤ length line.now)
        × ((prompt : List ℕ) (v : Variable) (u : Scanned) → input_at line.now first ≡ done (tree.line_input prompt v) u
        → (prompt ≡ take (result.end.0 - result.from.0) (drop result.from.0 line.now))
        × (target_at line.now prompt result.target ≡ done (tree.line_input prompt v) u))) }
{
    let token = first.token;
    match token {
        Token::Quoted(quotation) => {
            let from = quotation.at as usize;
            let end = from + quotation.len as usize;
            Query {
                from: Place(from),
                end: Place(end),
                target: after_text(line, first),
            }
        }
        _ => Query {
            from: Place(0),
            end: Place(0),
            target: first,
        },
    }
}

// The text is printed, then the variable is set to a line of input.
pub fn line_input(
    line: &[u8],
    here: Place,
    first: Scanned,
    machine: Machine,
    tables: &mut Tables,
    input: &[u8],
    space: &mut [u8],
    room: &mut [u8],
) -> Turned
    requires { Asks line.now first × (Laid machine tables.old.strings.lengths space.old × Fitting machine.printer room.old) }
    ensures does { (text prompt : List ℕ) (at : ℕ) (v : Variable) (u : Scanned) → Sound (state_of machine tables.old) input.now space.old room.old
        → Positioned text (after_of here u) → input_at line.now first ≡ done (tree.line_input prompt v) u
        → Turns text (state_of machine tables.old) input.now space.old room.old AnyRecords
        (λ n. do_statement text at (tree.line_input prompt v) n (position_of text (after_of here u))) (turn_of result tables.new) space.new room.new }
    ensures kept { tables.new.numbers ≡ tables.old.numbers }
{
    let asked = asked_at(line, first);
    let from = asked.from.0;
    let end = asked.end.0;
    prompt(
        line,
        here,
        &line[from..end],
        asked.target,
        machine,
        tables,
        input,
        space,
        room,
    )
}
