// WEND.
ghost use Rattle.std.specs.Prelude.{◌≡◌, List, ℕ};
ghost use Rattle.grammar.specs.Trees as tree;
ghost use Rattle.machine.specs.Machine as spec;
ghost use Rattle.machine.specs.Repeats.{start_of, is_while_of};
ghost use Rattle.machine.specs.bridge.Holding.{state_of, Sound};
ghost use Rattle.machine.specs.bridge.Wanted.{Told};
ghost use Rattle.turns.specs.Steps.{do_statement};
ghost use Rattle.turns.specs.bridge.Turns.{turn_of, Turns, FoundBelow};
ghost use Rattle.variables.specs.declared.tables.Tables.{Tables};

use machine::{Machine, Next, Record, Turned};
use turns::{fails, turned_to};
use whole::Error;

// It begins its WHILE again, if that has a record; those above it are dropped.
pub fn turn_back(machine: Machine, found: Option<usize>, entry: Record) -> Turned
    requires { FoundBelow machine.depth found }
    ensures { (text input space room : List ℕ) (tables : Tables) (line at : ℕ) (after : spec.Position) → start_of after.lines ≡ line
        → Sound (state_of machine tables) input space room
        → Turns text (state_of machine tables) input space room (Told text tables.numbers.names (is_while_of line at) machine.depth found entry)
        (λ n. do_statement text at tree.wend n after) (turn_of result tables) space room }
{
    match found {
        None => fails(machine, Error::WendWithoutWhile),
        Some(slot) => {
            let mut m = machine;
            m.depth = slot + 1;
            turned_to(m, Next::On(entry.back()))
        }
    }
}
