// IF.
ghost use Rattle.std.specs.Prelude.{◌≡◌, List, ℕ, true, false};
ghost use Rattle.words.specs.declared.symbols.Word.TheVariants.{Else};
ghost use Rattle.grammar.specs.Tests.{is_keyword};
ghost use Rattle.grammar.specs.Trees.{Formula, Part, if_then, if_else};
ghost use Rattle.grammar.specs.Formulas.{good, formula_of};
ghost use Rattle.statements.specs.Statements.{good_part, part_of};
ghost use Rattle.machine.specs.Machine as spec;
ghost use Rattle.machine.specs.bridge.Holding.{State, state_of, Shallow, lines_at, Settled, Sound};
ghost use Rattle.machine.specs.declared.positions.Next.TheVariants as next;
ghost use Rattle.turns.specs.Steps.{do_statement};
ghost use Rattle.turns.specs.bridge.Turns.{turn_of, turned_to, Turns, AnyRecords, Formed, Standing};
ghost use Rattle.control.specs.bridge.Answers.{taken_turn};
ghost use Rattle.variables.specs.declared.tables.Tables.{Tables};

use machine::{Machine, Next, Position, Turned};
use reader::else_of;
use turns::{fails, turned_to, value};
use variables::{Tables, Worked, mismatch};
use words::{Place, Scanned};

// A part of the line is entered, or the line is over.
fn position_of(here: Place, branch: Option<Place>) -> Position
    ensures { (m : State) → turned_to m (next.On result) ≡ taken_turn m here branch }
{
    match branch {
        Some(at) => Position {
            line: here,
            at,
            over: false,
        },
        None => Position {
            line: here,
            at: Place(0),
            over: true,
        },
    }
}

fn taken(machine: Machine, here: Place, branch: Option<Place>) -> Turned
    ensures { (tables : Tables) → turn_of result tables ≡ taken_turn (state_of machine tables) here branch }
{
    turned_to(machine, Next::On(position_of(here, branch)))
}

// An IF is true when not 0.
pub fn choose(
    line: &[u8],
    here: Place,
    first: Scanned,
    machine: Machine,
    tables: &Tables,
    space: &mut [u8],
) -> Turned
    requires { Formed line.now first × Settled (state_of machine tables.now) space.old }
    ensures { (text input room : List ℕ) (at : ℕ) (c : Formula) (way : Scanned) (p : Part) (u : Scanned) (after : spec.Position)
        → Sound (state_of machine tables.now) input space.old room
        → Standing text line.now here → after.lines ≡ lines_at text here.0
        → formula_of line.now first ≡ good c way → part_of line.now true way.next.0 ≡ good_part p u → Shallow p
        → (is_keyword Else u.token ≡ false
        → Turns text (state_of machine tables.now) input space.old room AnyRecords (λ n. do_statement text at (if_then c p) n after) (turn_of result tables.now) space.new room)
        × (is_keyword Else u.token ≡ true → (q : Part) (v : Scanned) → part_of line.now true u.next.0 ≡ good_part q v → Shallow q
        → Turns text (state_of machine tables.now) input space.old room AnyRecords (λ n. do_statement text at (if_else c p q) n after) (turn_of result tables.now) space.new room) }
{
    let worked = value(line, first, machine, tables, space);
    let Ok(Worked::Whole(word, then)) = worked else {
        return fails(machine, mismatch(worked));
    };
    let part = then.next;
    if word == 0 {
        return taken(machine, here, else_of(line, part));
    }
    taken(machine, here, Some(part))
}
