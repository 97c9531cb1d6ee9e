// The run over a lent stack of records.
ghost use Rattle.std.specs.Prelude.{◌≡◌, length};
ghost use Rattle.machine.specs.Machine.{lent_by};
ghost use Rattle.machine.specs.bridge.Holding.{state_of};
ghost use Rattle.runner.specs.Run.{run_of, answer_of, space_after, room_after, stack_after};
ghost use Rattle.runner.specs.bridge.Acting.{LooksUp};
ghost use Rattle.runner.specs.bridge.Endings.{run_in, ran_of};
ghost use Rattle.runner.specs.bridge.Lending.{Awaits, StepsAs, Loadable, Runnable, LoadedAs};

use crate::going::{Going, Lookup, act, asks, begins, goes, told};
use crate::running::{Done, Ran, admits, refused};
use index::rows_by;
use machine::{Machine, Record, Sought};
use rows::{LineTable, Row};
use variables::Tables;

// The record that is asked for, among the first so many.
fn look_up(stack: &[Record], depth: usize, sought: Sought) -> Lookup
    ensures { LooksUp sought depth stack.now result }
{
    let found = stack::find(stack, depth, sought);
    let entry = match found {
        Some(slot) => stack::at(stack, slot),
        None => Record::blank(),
    };
    Lookup { found, entry }
}

// One statement: the record that it asks for is looked up before it, and the one that it leaves is written after it.
pub(crate) fn step(
    text: &[u8],
    table: &LineTable,
    tables: &mut Tables,
    input: &[u8],
    space: &mut [u8],
    room: &mut [u8],
    stack: &mut [Record],
    going: Going,
) -> Going
    requires { Awaits text.now table.now.rows input.now going.standing (state_of going.machine tables.old) space.old room.old }
    ensures { StepsAs text.now table.now.rows input.now going.standing (state_of going.machine tables.old) space.old room.old stack.old
        result (state_of result.machine tables.new) space.new room.new stack.new }
{
    let asked = asks(text, table, going, &tables.numbers);
    let lookup = look_up(stack, going.machine.depth, asked.sought);
    let acted = act(
        text, table, going, tables, asked, lookup, input, space, room,
    );
    stack::put(stack, acted.slot, acted.held);
    acted.going
}

// A run of a text that loads, by the table of its lines.
pub(crate) fn run_loaded(
    text: &[u8],
    table: &LineTable,
    tables: &mut Tables,
    input: &[u8],
    space: &mut [u8],
    room: &mut [u8],
    stack: &mut [Record],
    budget: u32,
) -> Done
    requires { Loadable text.now table.now.rows tables.old space.old stack.old }
    ensures { LoadedAs (run_in text.now input.now (lent_by space.old room.old (length stack.old)) budget) space.old room.old stack.old
        (ran_of result tables.new) space.new room.new stack.new }
{
    let mut going = begins(table, stack.len());
    while goes(going, budget) {
        going = step(text, table, tables, input, space, room, stack, going);
    }
    stack::wipe(stack);
    told(table, going, space)
}

// The tables are blank at first, and those of the lines are made.
pub(crate) fn run_fine(
    text: &[u8],
    input: &[u8],
    space: &mut [u8],
    room: &mut [u8],
    index: &[u16],
    stack: &mut [Record],
    budget: u32,
    tables: &mut Tables,
) -> Done
    requires { Runnable text.now space.old stack.old }
    ensures { LoadedAs (run_in text.now input.now (lent_by space.old room.old (length stack.old)) budget) space.old room.old stack.old
        (ran_of result tables.new) space.new room.new stack.new }
{
    *tables = Tables::empty();
    let mut table = LineTable {
        rows: [0; Row::CELLS],
    };
    rows_by(text, index, &mut table.rows);
    run_loaded(text, &table, tables, input, space, room, stack, budget)
}

// A run over tables that are lent, whatever they hold: a refusal leaves them as they were. No index changes its answer.
pub fn run_lent(
    text: &[u8],
    input: &[u8],
    space: &mut [u8],
    room: &mut [u8],
    index: &[u16],
    stack: &mut [Record],
    budget: u32,
    tables: &mut Tables,
) -> Done
    ensures { (ran_of result tables.new
        ≡ answer_of (run_of text.now input.now (lent_by space.old room.old (length stack.old)) budget) tables.old)
        × ((space.new ≡ space_after (run_of text.now input.now (lent_by space.old room.old (length stack.old)) budget) space.old)
        × ((room.new ≡ room_after (run_of text.now input.now (lent_by space.old room.old (length stack.old)) budget) room.old)
        × (stack.new ≡ stack_after (run_of text.now input.now (lent_by space.old room.old (length stack.old)) budget) stack.old))) }
{
    match admits(text, space.len(), stack.len()) {
        Ok(()) => run_fine(text, input, space, room, index, stack, budget, tables),
        Err(at) => refused(at),
    }
}

// A run that is handed tables, and hands back those that it made; a refused one those that it was handed.
pub fn run(
    text: &[u8],
    input: &[u8],
    space: &mut [u8],
    room: &mut [u8],
    index: &[u16],
    stack: &mut [Record],
    budget: u32,
    tables: Tables,
) -> Ran
    ensures { (result ≡ answer_of (run_of text.now input.now (lent_by space.old room.old (length stack.old)) budget) tables)
        × ((space.new ≡ space_after (run_of text.now input.now (lent_by space.old room.old (length stack.old)) budget) space.old)
        × ((room.new ≡ room_after (run_of text.now input.now (lent_by space.old room.old (length stack.old)) budget) room.old)
        × (stack.new ≡ stack_after (run_of text.now input.now (lent_by space.old room.old (length stack.old)) budget) stack.old))) }
{
    let mut made = tables;
    let done = run_lent(text, input, space, room, index, stack, budget, &mut made);
    Ran {
        outcome: done.outcome,
        steps: done.steps,
        written: done.written,
        taken: done.taken,
        tables: made,
    }
}

// A run on as many records of its own; whoever calls it needs no stack.
pub fn run_with(
    text: &[u8],
    input: &[u8],
    space: &mut [u8],
    room: &mut [u8],
    index: &[u16],
    records: usize,
    budget: u32,
    tables: Tables,
) -> Ran
    ensures { (result ≡ answer_of (run_of text.now input.now (lent_by space.old room.old records) budget) tables)
        × ((space.new ≡ space_after (run_of text.now input.now (lent_by space.old room.old records) budget) space.old)
        × (room.new ≡ room_after (run_of text.now input.now (lent_by space.old room.old records) budget) room.old)) }
{
    let mut stack = [Record::blank(); 1 + Machine::RECORDS];
    // One too many is refused as any larger number is.
    let most = records.min(1 + Machine::RECORDS);
    run(
        text,
        input,
        space,
        room,
        index,
        &mut stack[..most],
        budget,
        tables,
    )
}
