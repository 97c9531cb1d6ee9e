// The calls that run, check and ask.
ghost use Rattle.std.specs.Prelude.{◌≡◌, length};
ghost use Rattle.checker.specs.Check.{check_of};
ghost use Rattle.asking.specs.Asking.{ask_of};
ghost use Rattle.machine.specs.Machine.{lent_by};
ghost use Rattle.runner.specs.Run.{run_of};
ghost use Rattle.blocks.specs.Blocks.{tables_in};
ghost use Rattle.host.specs.Answers.{verdict_in, found_in};
ghost use Rattle.host.specs.Calls.{HasRun};

use blocks::Block;
use machine::Record;

// Runs a recipe. The tables are the run's own until it ends.
#[unsafe(no_mangle)]
pub extern "C" fn quernhem_run(
    text: &[u8],
    input: &[u8],
    space: &mut [u8],
    room: &mut [u8],
    index: &[u16],
    records: &mut [Record],
    budget: u32,
    tables: &mut Block,
    answer: &mut [u64; 7],
)
    ensures { HasRun (run_of text.now input.now (lent_by space.old room.old (length records.old)) budget)
        space.old room.old records.old tables.old
        space.new room.new records.new tables.new answer.new }
{
    host::quernhem_run(
        text, input, space, room, index, records, budget, tables, answer,
    )
}

// Checks a recipe.
#[unsafe(no_mangle)]
pub extern "C" fn quernhem_check(text: &[u8], verdict: &mut [u64; 4])
    ensures { verdict.new ≡ verdict_in (check_of text.now) }
{
    host::quernhem_check(text, verdict)
}

// Asks for a variable after a run.
#[unsafe(no_mangle)]
pub extern "C" fn quernhem_ask(tables: &Block, space: &[u8], name: &[u8], found: &mut [u64; 5])
    ensures { found.new ≡ found_in (ask_of (tables_in tables.now) (length space.now) name.now) }
{
    host::quernhem_ask(tables, space, name, found)
}
