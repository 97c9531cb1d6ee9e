// WHILE.
ghost use Rattle.std.specs.Prelude.{List, ℕ, ◌<◌, None, Some};
ghost use Rattle.grammar.specs.Trees as tree;
ghost use Rattle.grammar.specs.Trees.{Formula};
ghost use Rattle.machine.specs.Order.{wend_for};
ghost use Rattle.machine.specs.Repeats.{is_while};
ghost use Rattle.machine.specs.bridge.Holding.{lines_at, position_of, state_of, Settled, Sound};
ghost use Rattle.machine.specs.bridge.Wanted.{Told};
ghost use Rattle.order.specs.bridge.Walking.{Lined};
ghost use Rattle.turns.specs.Steps.{do_statement};
ghost use Rattle.turns.specs.bridge.Turns.{turn_of, after_of, Turns, Formed, FoundBelow};
ghost use Rattle.repeating.specs.bridge.Repeating.{PastWend, WhileStands};

use machine::{Machine, Next, Record, Turned};
use order::{partner_after, position_past};
use turns::{after, fails, goes_on, push, turned_to, value};
use variables::{Tables, Worked, mismatch};
use whole::Error;
use words::{Place, Scanned, Word};

// After the WEND of a WHILE that stands at a place of its line; none is 29.
fn past_wend(text: &[u8], line: Place, at: Place) -> Next
    requires { Lined text.now line.0 }
    ensures { PastWend text.now result (wend_for at.0 (lines_at text.now line.0)) }
{
    match partner_after(text, line, at, Word::While, Word::Wend) {
        None => Next::Fails(Error::WhileWithoutWend),
        Some(spot) => Next::On(position_past(text, spot)),
    }
}

// It has no record: one is made, or the body is skipped; no WEND is 29, tested before the condition.
fn first_turn(
    text: &[u8],
    line: &[u8],
    here: Place,
    at: Place,
    condition: Scanned,
    machine: Machine,
    tables: &Tables,
    space: &mut [u8],
) -> Turned
    requires { Formed line.now condition × (Settled (state_of machine tables.now) space.old × Lined text.now here.0) }
    ensures { (input room : List ℕ) (entry : Record) (c : Formula) (u : Scanned) → Sound (state_of machine tables.now) input space.old room
        → WhileStands text.now line.now here at condition c u
        → Turns text.now (state_of machine tables.now) input space.old room (Told text.now tables.now.numbers.names (is_while here.0 at.0) machine.depth None entry)
        (λ n. do_statement text.now at.0 (tree.while c) n (position_of text.now (after_of here u))) (turn_of result tables.now) space.new room }
{
    let Some(spot) = partner_after(text, here, at, Word::While, Word::Wend) else {
        return fails(machine, Error::WhileWithoutWend);
    };
    let worked = value(line, condition, machine, tables, space);
    let Ok(Worked::Whole(word, ahead)) = worked else {
        return fails(machine, mismatch(worked));
    };
    if word == 0 {
        return turned_to(machine, Next::On(position_past(text, spot)));
    }
    let ending = spot.line.place;
    let held = Record::repeats(here, at, ending, spot.at);
    push(machine, held, Next::On(after(here, ahead)))
}

// Its record is there: it stays, or with a false condition it is dropped; those above it are dropped.
fn next_turn(
    text: &[u8],
    line: &[u8],
    here: Place,
    at: Place,
    condition: Scanned,
    machine: Machine,
    tables: &Tables,
    slot: usize,
    space: &mut [u8],
) -> Turned
    requires { Formed line.now condition × (Settled (state_of machine tables.now) space.old × ((slot < machine.depth) × Lined text.now here.0)) }
    ensures { (input room : List ℕ) (entry : Record) (c : Formula) (u : Scanned) → Sound (state_of machine tables.now) input space.old room
        → WhileStands text.now line.now here at condition c u
        → Turns text.now (state_of machine tables.now) input space.old room (Told text.now tables.now.numbers.names (is_while here.0 at.0) machine.depth (Some slot) entry)
        (λ n. do_statement text.now at.0 (tree.while c) n (position_of text.now (after_of here u))) (turn_of result tables.now) space.new room }
{
    let worked = value(line, condition, machine, tables, space);
    let Ok(Worked::Whole(word, ahead)) = worked else {
        return fails(machine, mismatch(worked));
    };
    let mut m = machine;
    if word == 0 {
        m.depth = slot;
        return turned_to(m, past_wend(text, here, at));
    }
    m.depth = slot + 1;
    goes_on(m, here, ahead)
}

// From the condition on; a true one goes on with the body, a false one after the WEND.
pub fn repeat(
    text: &[u8],
    line: &[u8],
    here: Place,
    at: Place,
    condition: Scanned,
    machine: Machine,
    tables: &Tables,
    found: Option<usize>,
    space: &mut [u8],
) -> Turned
    requires { Formed line.now condition × (Settled (state_of machine tables.now) space.old × (FoundBelow machine.depth found × Lined text.now here.0)) }
    ensures { (input room : List ℕ) (entry : Record) (c : Formula) (u : Scanned) → Sound (state_of machine tables.now) input space.old room
        → WhileStands text.now line.now here at condition c u
        → Turns text.now (state_of machine tables.now) input space.old room (Told text.now tables.now.numbers.names (is_while here.0 at.0) machine.depth found entry)
        (λ n. do_statement text.now at.0 (tree.while c) n (position_of text.now (after_of here u))) (turn_of result tables.now) space.new room }
{
    match found {
        None => first_turn(text, line, here, at, condition, machine, tables, space),
        Some(slot) => next_turn(
            text, line, here, at, condition, machine, tables, slot, space,
        ),
    }
}
