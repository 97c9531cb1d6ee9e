// The functions that a host links. Each writes only what is lent to it.
ghost use Rattle.std.specs.Prelude.{◌≡◌, length};
ghost use Rattle.checker.specs.Check.{check_of};
ghost use Rattle.asking.specs.Asking.{ask_of};
ghost use Rattle.machine.specs.Machine.{lent_by};
ghost use Rattle.runner.specs.Run.{Ran, answer_of, run_of};
ghost use Rattle.runner.specs.bridge.Endings.{ran_of};
ghost use Rattle.variables.specs.declared.tables.Tables.{Tables};
ghost use Rattle.blocks.specs.Blocks.{tables_in};
ghost use Rattle.host.specs.Answers.{verdict_in, found_in};
ghost use Rattle.host.specs.Calls.{Told, HasRun};

use crate::answers::{answer_of, found_of, verdict_of};
use asking::ask;
use blocks::{Block, tables_in, write_block};
use checker::check_recipe;
use machine::Record;
use runner::{Done, is_refused, run_lent};
use variables::Tables;

// What a run over tables of its own came to: the answer by its numbers, and the tables in the block; where it was refused the block is left
// alone.
pub(crate) fn tell(done: Done, made: &Tables, tables: &mut Block, answer: &mut [u64; 7])
    ensures { (ran : Ran) (given : Tables) → ran_of done made.now ≡ answer_of ran given
        → Told ran tables.old tables.new answer.new }
{
    *answer = answer_of(done);
    if is_refused(done.outcome) {
        return;
    }
    write_block(tables, made);
}

// Runs a recipe. The tables are the run's own until it ends.
#[unsafe(no_mangle)]
pub extern "C" fn quernhem_run(
    text: &[u8],
    input: &[u8],
    space: &mut [u8],
    room: &mut [u8],
    index: &[u16],
    records: &mut [Record],
    budget: u32,
    tables: &mut Block,
    answer: &mut [u64; 7],
)
    ensures { HasRun (run_of text.now input.now (lent_by space.old room.old (length records.old)) budget)
        space.old room.old records.old tables.old
        space.new room.new records.new tables.new answer.new }
{
    let mut made = Tables::empty();
    let done = run_lent(text, input, space, room, index, records, budget, &mut made);
    tell(done, &made, tables, answer);
}

// Checks a recipe.
#[unsafe(no_mangle)]
pub extern "C" fn quernhem_check(text: &[u8], verdict: &mut [u64; 4])
    ensures { verdict.new ≡ verdict_in (check_of text.now) }
{
    *verdict = verdict_of(check_recipe(text));
}

// Asks for a variable after a run.
#[unsafe(no_mangle)]
pub extern "C" fn quernhem_ask(tables: &Block, space: &[u8], name: &[u8], found: &mut [u64; 5])
    ensures { found.new ≡ found_in (ask_of (tables_in tables.now) (length space.now) name.now) }
{
    *found = found_of(ask(tables_in(tables), space, name));
}
