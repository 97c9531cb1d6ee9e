// A recipe is checked, and run only if it passes.
ghost use Rattle.std.specs.Prelude.{◌≡◌, true};
ghost use Rattle.machine.specs.Machine.{lent_by};
ghost use Rattle.promises.specs.Guarded.{guarded_run, guarded_answer, guarded_space, guarded_room, held_as, run_as, ends_checked};

use checker::{Fault, check_recipe};
use runner::{Outcome, Ran, run_with};
use variables::Tables;

// How the run came out; or why the check did not pass the recipe, and nothing was run.
#[derive(Clone, Copy)]
pub struct CheckedRun {
    pub outcome: Result<Outcome, Fault>,
    pub steps: u32,
    pub written: usize,
    pub taken: usize,
    pub tables: Tables,
}

// What is answered where nothing was run: nothing lent has changed.
fn held(fault: Fault, tables: Tables) -> CheckedRun
    ensures { result ≡ held_as fault tables }
{
    CheckedRun {
        outcome: Err(fault),
        steps: 0,
        written: 0,
        taken: 0,
        tables,
    }
}

impl From<Ran> for CheckedRun {
    ghost from_gives = { λ ran checked. checked ≡ run_as ran };

    fn from(ran: Ran) -> CheckedRun {
        CheckedRun {
            outcome: Ok(ran.outcome),
            steps: ran.steps,
            written: ran.written,
            taken: ran.taken,
            tables: ran.tables,
        }
    }
}

// Checks, then runs.
pub fn run_checked(
    text: &[u8],
    input: &[u8],
    space: &mut [u8],
    room: &mut [u8],
    records: usize,
    budget: u32,
    tables: Tables,
) -> CheckedRun
    ensures { (result ≡ guarded_answer (guarded_run text.now input.now (lent_by space.old room.old records) budget) tables)
        × ((space.new ≡ guarded_space (guarded_run text.now input.now (lent_by space.old room.old records) budget) space.old)
        × ((room.new ≡ guarded_room (guarded_run text.now input.now (lent_by space.old room.old records) budget) room.old)
        × (ends_checked result.outcome ≡ true))) }
{
    match check_recipe(text) {
        Ok(()) => CheckedRun::from(run_with(
            text,
            input,
            space,
            room,
            &[],
            records,
            budget,
            tables,
        )),
        Err(fault) => held(fault, tables),
    }
}
