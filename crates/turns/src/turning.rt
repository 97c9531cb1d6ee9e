// How a statement ends, and working out a formula with the machine's tables.
ghost use Rattle.std.specs.Prelude.{◌≡◌, List, ℕ};
ghost use Rattle.grammar.specs.Trees.{Formula};
ghost use Rattle.grammar.specs.Formulas.{good, formula_of};
ghost use Rattle.machine.specs.bridge.Holding.{state_of, Settled};
ghost use Rattle.machine.specs.declared.positions.Next.TheVariants as next;
ghost use Rattle.turns.specs.bridge.Turns.{turn_of, came_to, after_of, pushed_turn, Formed, Valued};
ghost use Rattle.variables.specs.declared.tables.Tables.{Tables};

use formulas::work_out;
use grammar::is_symbol;
use machine::{Machine, Next, Position, Record, Turned};
use variables::{Tables, Worked};
use whole::Error;
use words::{Place, Scanned, Sign};

// No record is written.
pub fn turned_to(machine: Machine, next: Next) -> Turned
    ensures { result ≡ came_to machine next }
{
    Turned {
        machine,
        next,
        slot: Machine::RECORDS,
        held: Record::blank(),
    }
}

pub fn fails(machine: Machine, error: Error) -> Turned
    ensures { result ≡ came_to machine (next.Fails error) }
{
    turned_to(machine, Next::Fails(error))
}

// Where the run goes on after a statement of a line that this token follows.
pub fn after(line: Place, ahead: Scanned) -> Position
    ensures { result ≡ after_of line ahead }
{
    let token = ahead.token;
    let colon = is_symbol(Sign::Colon, token);
    let at = ahead.next;
    Position {
        line,
        at,
        over: !colon,
    }
}

pub fn goes_on(machine: Machine, line: Place, ahead: Scanned) -> Turned
    ensures { result ≡ came_to machine (next.On (after_of line ahead)) }
{
    turned_to(machine, Next::On(after(line, ahead)))
}

// A record more, if there is room.
pub fn push(machine: Machine, held: Record, onward: Next) -> Turned
    ensures { (tables : Tables) → turn_of result tables ≡ pushed_turn (state_of machine tables) held onward }
{
    let slot = machine.depth;
    if machine.records <= slot {
        return fails(machine, Error::OutOfMemory);
    }
    let mut deeper = machine;
    deeper.depth = slot + 1;
    Turned {
        machine: deeper,
        next: onward,
        slot,
        held,
    }
}

// The value of the formula that begins with a token; the tables are the variables' of the machine.
pub fn value(
    line: &[u8],
    ahead: Scanned,
    machine: Machine,
    tables: &Tables,
    space: &mut [u8],
) -> Result<Worked, Error>
    requires { Formed line.now ahead
        × Settled (state_of machine tables.now) space.old }
    ensures { (f : Formula) (u : Scanned) → formula_of line.now ahead ≡ good f u
        → Valued (state_of machine tables.now) f u space.old result space.new }
{
    work_out(line, ahead, tables, space, machine.used)
}
