// The statement that stands at a place of a line that reads.
ghost use Rattle.std.specs.Prelude.{◌≡◌, true};
ghost use Rattle.grammar.specs.Trees.{Part};
ghost use Rattle.scanner.specs.Tokens.{token_at};
ghost use Rattle.statements.specs.Statements.{lead_of, good_part, part_of};
ghost use Rattle.statements.specs.Parts.{head_of, tail_of, place_of};
ghost use Rattle.machine.specs.bridge.Holding.{state_of, lines_at, Parted, Fed, Sound};
ghost use Rattle.machine.specs.bridge.Seeking.{wish_of, test_of};
ghost use Rattle.machine.specs.bridge.Wanted.{Told};
ghost use Rattle.rows.specs.bridge.Rows.{Tabled};
ghost use Rattle.turns.specs.Steps.{do_statement};
ghost use Rattle.turns.specs.bridge.Turns.{turn_of, Turns, Standing, FoundBelow};

use control::{call, choose, come_back, count, jump, next_loop};
use dialogue::{line_input, print};
use feeding::{pass, read, restore};
use machine::{Machine, Next, Record, Turned};
use repeating::{repeat, turn_back};
use rows::LineTable;
use scanner::token_at;
use statements::Lead;
use turns::{fails, goes_on, set, turned_to};
use variables::Tables;
use whole::Error;
use words::{Place, Scanned, Word};

// By how the statement is led; the tables are the machine's variables. After a remark and an empty one the run goes on at what follows; a
// line that reads has none that is led by nothing.
pub fn do_statement(
    text: &[u8],
    table: &LineTable,
    line: &[u8],
    here: Place,
    at: Place,
    lead: Option<Lead>,
    machine: Machine,
    tables: &mut Tables,
    found: Option<usize>,
    entry: Record,
    input: &[u8],
    space: &mut [u8],
    room: &mut [u8],
) -> Turned
    requires { Standing text.now line.now here
        × (Parted line.now at.0
        × (Sound (state_of machine tables.old) input.now space.old room.old
        × (FoundBelow machine.depth found
        × ((lead ≡ lead_of line.now true (token_at line.now at)) × (Tabled text.now table.now.rows × Fed text.now machine.feed))))) }
    ensures { (p : Part) (end : Scanned) → part_of line.now true at.0 ≡ good_part p end
        → Turns text.now (state_of machine tables.old) input.now space.old room.old
        (Told text.now tables.old.numbers.names (test_of (wish_of here.0 (place_of p) (head_of p))) machine.depth found entry)
        (λ n. do_statement text.now (place_of p) (head_of p) n (record { lines = lines_at text.now here.0; rest = tail_of p }))
        (turn_of result tables.new) space.new room.new }
{
    match lead {
        Some(led) => match led.word {
            Word::Let => set(line, here, led.ahead, machine, tables, space),
            Word::Print => print(line, here, led.ahead, machine, tables, space, room),
            Word::If => choose(line, here, led.ahead, machine, tables, space),
            Word::Goto => jump(table, led.ahead, machine),
            Word::Gosub => call(table, line, here, led.ahead, machine),
            Word::Return => come_back(machine, found, entry),
            Word::For => count(
                text, line, here, at, led.ahead, machine, tables, found, space,
            ),
            Word::Next => next_loop(line, here, led.ahead, machine, tables, found, entry),
            Word::While => repeat(
                text, line, here, at, led.ahead, machine, tables, found, space,
            ),
            Word::Wend => turn_back(machine, found, entry),
            Word::Line => line_input(
                line,
                here,
                token_at(line, led.ahead.next),
                machine,
                tables,
                input,
                space,
                room,
            ),
            Word::Data => pass(line, here, lead, machine),
            Word::Read => read(text, line, here, led.ahead, machine, tables, space),
            Word::Restore => restore(table, line, here, led.ahead, machine),
            Word::End => turned_to(machine, Next::Ends),
            Word::Stop => turned_to(machine, Next::Stops),
            _ => goes_on(machine, here, led.ahead),
        },
        None => fails(machine, Error::Syntax),
    }
}
