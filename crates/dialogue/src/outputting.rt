// PRINT.
ghost use Rattle.std.specs.Prelude.{◌≡◌, true, false, List, ℕ, ◌+◌, ◌≤◌, length, take, drop};
ghost use Rattle.whole.specs.Texts as texts;
ghost use Rattle.grammar.specs.Trees as tree;
ghost use Rattle.grammar.specs.Trees.{Item};
ghost use Rattle.grammar.specs.Tests.{ends_statement};
ghost use Rattle.statements.specs.Statements.{items, is_separator};
ghost use Rattle.statements.specs.bridge.Answers.{items_of};
ghost use Rattle.variables.specs.bridge.Memory.{text_length};
ghost use Rattle.machine.specs.bridge.Holding.{state_of, position_of, Positioned, Settled, Fitting, Sound};
ghost use Rattle.turns.specs.Steps.{do_statement};
ghost use Rattle.turns.specs.bridge.Turns.{turn_of, after_of, Turns, AnyRecords, Formed, with_printer};
ghost use Rattle.dialogue.specs.bridge.Showing.{Itemed, Writes, shown_as, ShowsWorked, ItemAt, Shows, ended_turn, ended_room};
ghost use Rattle.variables.specs.declared.tables.Tables.{Tables};

use grammar::{ends_statement, is_symbol};
use machine::{Machine, Printer, Turned, write, write_comma};
use scanner::token_at;
use space::Offset;
use turns::{fails, goes_on, value};
use variables::{Tables, Worked};
use whole::{Error, print_text};
use words::{Place, Scanned, Sign};

const LINE_END: [u8; 2] = [13, 10];

pub(crate) fn with_printer(machine: Machine, printer: Printer) -> Machine
    ensures { (tables : Tables) → state_of result tables ≡ with_printer (state_of machine tables) printer }
{
    let mut next = machine;
    next.printer = printer;
    next
}

fn print_number(printer: Printer, room: &mut [u8], word: u16) -> Option<Printer>
    requires { Fitting printer room.old }
    ensures { Writes printer room.old (texts.printed_number word) result room.new }
{
    let text = print_text(word);
    let bytes = text.bytes;
    let count = text.len as usize;
    write(printer, room, &bytes[..count])
}

// The text stands right after the variables' bytes.
fn print_string(
    printer: Printer,
    room: &mut [u8],
    space: &[u8],
    from: Offset,
    len: usize,
) -> Option<Printer>
    requires { Fitting printer room.old × (from.0 + len ≤ length space.now) }
    ensures { Writes printer room.old (take len (drop from.0 space.now)) result room.new }
{
    let start = from.0;
    let end = start + len;
    write(printer, room, &space[start..end])
}

fn shown_or_full(printed: Option<Printer>, ahead: Scanned) -> Result<(Printer, Scanned), Error>
    ensures { result ≡ shown_as printed ahead }
{
    printed
        .map(|printer| (printer, ahead))
        .ok_or(Error::OutputFull)
}

fn show(
    worked: Result<Worked, Error>,
    machine: Machine,
    space: &[u8],
    room: &mut [u8],
) -> Result<(Printer, Scanned), Error>
    requires { Fitting machine.printer room.old × (machine.used.0 + text_length worked ≤ length space.now) }
    ensures { ShowsWorked worked machine.used.0 machine.printer space.now room.old result room.new }
{
    let printer = machine.printer;
    match worked {
        Err(error) => Err(error),
        Ok(Worked::Whole(word, ahead)) => shown_or_full(print_number(printer, room, word), ahead),
        Ok(Worked::Text(len, ahead)) => shown_or_full(
            print_string(printer, room, space, machine.used, len),
            ahead,
        ),
    }
}

// Without a final `,` or `;` the line ends.
fn print_end(machine: Machine, quiet: bool, room: &mut [u8], here: Place, ahead: Scanned) -> Turned
    requires { Fitting machine.printer room.old }
    ensures { ((tables : Tables) → turn_of result tables ≡ ended_turn (state_of machine tables) quiet (length room.old) here ahead)
        × (room.new ≡ ended_room machine.printer quiet room.old) }
{
    if quiet {
        return goes_on(machine, here, ahead);
    }
    let line_end = LINE_END;
    let Some(printer) = write(machine.printer, room, &line_end) else {
        return fails(machine, Error::OutputFull);
    };
    goes_on(with_printer(machine, printer), here, ahead)
}

// Whether no item is left.
fn ends_items(ahead: Scanned) -> bool
    ensures { result ≡ ends_statement ahead.token }
{
    let token = ahead.token;
    ends_statement(token)
}

fn separates(item: Scanned) -> bool
    ensures { result ≡ is_separator item.token }
{
    let token = item.token;
    if is_symbol(Sign::Comma, token) {
        return true;
    }
    is_symbol(Sign::Semicolon, token)
}

// A comma goes to the next zone; a semicolon prints nothing.
fn print_separator(
    line: &[u8],
    item: Scanned,
    machine: Machine,
    room: &mut [u8],
) -> Result<(Printer, Scanned), Error>
    requires { Fitting machine.printer room.old }
    ensures { (i : Item) (u : Scanned) (space : List ℕ) (tables : Tables) → is_separator item.token ≡ true → ItemAt line.now item i u
        → Shows (state_of machine tables) i u space room.old result space room.new }
{
    let token = item.token;
    let printer = machine.printer;
    let ahead = token_at(line, item.next);
    if is_symbol(Sign::Comma, token) {
        return shown_or_full(write_comma(printer, room), ahead);
    }
    Ok((printer, ahead))
}

// A comma, a semicolon, or a formula.
fn print_item(
    line: &[u8],
    item: Scanned,
    machine: Machine,
    tables: &Tables,
    space: &mut [u8],
    room: &mut [u8],
) -> Result<(Printer, Scanned), Error>
    requires { (is_separator item.token ≡ false → Formed line.now item)
        × (Settled (state_of machine tables.now) space.old × Fitting machine.printer room.old) }
    ensures { (i : Item) (u : Scanned) → ItemAt line.now item i u
        → Shows (state_of machine tables.now) i u space.old room.old result space.new room.new }
{
    if separates(item) {
        return print_separator(line, item, machine, room);
    }
    let worked = value(line, item, machine, tables, space);
    show(worked, machine, space, room)
}

// Items are worked out, printed and let go one by one.
pub fn print(
    line: &[u8],
    here: Place,
    first: Scanned,
    machine: Machine,
    tables: &Tables,
    space: &mut [u8],
    room: &mut [u8],
) -> Turned
    requires { Itemed line.now first × (Settled (state_of machine tables.now) space.old × Fitting machine.printer room.old) }
    ensures { (text input : List ℕ) (at : ℕ) (is : List Item) (u : Scanned) → Sound (state_of machine tables.now) input space.old room.old → Positioned text (after_of here u)
        → items_of line.now first ≡ items is u
        → Turns text (state_of machine tables.now) input space.old room.old AnyRecords
        (λ n. do_statement text at (tree.print is) n (position_of text (after_of here u)))
        (turn_of result tables.now) space.new room.new }
{
    let mut m = machine;
    let mut item = first;
    let mut quiet = false;
    loop {
        if ends_items(item) {
            return print_end(m, quiet, room, here, item);
        }
        quiet = separates(item);
        match print_item(line, item, m, tables, space, room) {
            Err(error) => return fails(m, error),
            Ok((printer, ahead)) => {
                m = with_printer(m, printer);
                item = ahead;
            }
        }
    }
}
