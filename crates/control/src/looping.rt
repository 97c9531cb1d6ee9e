// FOR and NEXT.
ghost use Rattle.std.specs.Prelude.{◌≡◌, Bool, List, ℕ, ◌<◌, Err, None, Ok, Some};
ghost use Rattle.words.specs.Names.{name_bytes, telling_of};
ghost use Rattle.grammar.specs.Trees as tree;
ghost use Rattle.grammar.specs.Trees.{Formula};
ghost use Rattle.grammar.specs.Formulas as formulas;
ghost use Rattle.grammar.specs.Formulas.{formula_of};
ghost use Rattle.statements.specs.Statements.{done, variable_of, for_at};
ghost use Rattle.machine.specs.Machine as spec;
ghost use Rattle.machine.specs.Machine.{sought, is_loop_of};
ghost use Rattle.machine.specs.bridge.Holding.{state_of, position_of, Positioned, Settled, Sound};
ghost use Rattle.machine.specs.bridge.Wanted.{Told};
ghost use Rattle.order.specs.bridge.Walking.{Lined};
ghost use Rattle.turns.specs.Steps.{from_step, from_limit, next_on, do_statement};
ghost use Rattle.turns.specs.bridge.Turns.{turn_of, after_of, Turns, FoundBelow};
ghost use Rattle.control.specs.bridge.Answers.{Counts, Stepped, Limited, LoopsOnly, step_of, dropped_to, word_in, with_word};
ghost use Rattle.control.specs.bridge.Skipping.{LoopBegun};
ghost use Rattle.variables.specs.declared.tables.Tables.{Tables};

use crate::skipping::skip_body;
use grammar::is_keyword;
use machine::{Machine, Next, Record, Turned, passed};
use scanner::token_at;
use turns::{after, fails, goes_on, push, turned_to, value};
use variables::{Numbers, Tables, Worked, mismatch};
use whole::{Error, Operator, apply};
use words::{Kind, Name, Place, Scanned, Word};

// An older loop of the variable is dropped with all above it.
fn dropped_to(machine: Machine, found: Option<usize>) -> Machine
    ensures { (tables : Tables) → state_of result tables ≡ dropped_to (state_of machine tables) found }
{
    match found {
        None => machine,
        Some(slot) => {
            let mut m = machine;
            m.depth = slot;
            m
        }
    }
}

// The variable is set, an older loop of it is dropped, then the body is skipped or a record is made.
fn begin_loop(
    text: &[u8],
    line: &[u8],
    here: Place,
    at: Place,
    name: Name,
    from: u16,
    limit: u16,
    step: u16,
    ahead: Scanned,
    machine: Machine,
    tables: &mut Tables,
    found: Option<usize>,
) -> Turned
    requires { Lined text.now here.0 }
    ensures does { LoopBegun text.now at (state_of machine tables.old) (telling_of (name_bytes line.now name)) from limit step (after_of here ahead) found
        (turn_of result tables.new) }
    ensures kept { tables.new.strings ≡ tables.old.strings }
{
    let Some(slot) = tables.numbers.store(line, name, from) else {
        return fails(machine, Error::OutOfMemory);
    };
    let under = dropped_to(machine, found);
    if passed(from, limit, step) {
        return turned_to(under, skip_body(text, here, at, line, name));
    }
    let back = after(here, ahead);
    let held = Record::counts(slot, limit, step, back);
    push(under, held, Next::On(back))
}

// From what follows the limit on.
fn with_step(
    text: &[u8],
    line: &[u8],
    here: Place,
    at: Place,
    name: Name,
    from: u16,
    limit: u16,
    follow: Scanned,
    machine: Machine,
    tables: &mut Tables,
    found: Option<usize>,
    space: &mut [u8],
) -> Turned
    requires { Stepped line.now follow × (Settled (state_of machine tables.old) space.old × (FoundBelow machine.depth found × Lined text.now here.0)) }
    ensures does { (input room : List ℕ) (by : Formula) (u : Scanned) → Sound (state_of machine tables.old) input space.old room → Positioned text.now (after_of here u)
        → step_of line.now follow ≡ formulas.good by u → (entry : Record)
        → Turns text.now (state_of machine tables.old) input space.old room (Told text.now tables.old.numbers.names (is_loop_of (telling_of (name_bytes line.now name))) machine.depth found entry)
        (from_step (telling_of (name_bytes line.now name)) at.0 (position_of text.now (after_of here u)) by from limit) (turn_of result tables.new) space.new room }
    ensures kept { tables.new.strings ≡ tables.old.strings }
{
    let token = follow.token;
    if !is_keyword(Word::Step, token) {
        return begin_loop(
            text, line, here, at, name, from, limit, 1, follow, machine, tables, found,
        );
    }
    let first = token_at(line, follow.next);
    let worked = value(line, first, machine, tables, space);
    let Ok(Worked::Whole(step, ahead)) = worked else {
        return fails(machine, mismatch(worked));
    };
    begin_loop(
        text, line, here, at, name, from, limit, step, ahead, machine, tables, found,
    )
}

// From the limit on.
fn with_limit(
    text: &[u8],
    line: &[u8],
    here: Place,
    at: Place,
    name: Name,
    from: u16,
    first: Scanned,
    machine: Machine,
    tables: &mut Tables,
    found: Option<usize>,
    space: &mut [u8],
) -> Turned
    requires { Limited line.now first × (Settled (state_of machine tables.old) space.old × (FoundBelow machine.depth found × Lined text.now here.0)) }
    ensures does { (input room : List ℕ) (to by : Formula) (t u : Scanned) → Sound (state_of machine tables.old) input space.old room
        → Positioned text.now (after_of here u) → formula_of line.now first ≡ formulas.good to t
        → step_of line.now t ≡ formulas.good by u → (entry : Record)
        → Turns text.now (state_of machine tables.old) input space.old room (Told text.now tables.old.numbers.names (is_loop_of (telling_of (name_bytes line.now name))) machine.depth found entry)
        (from_limit (telling_of (name_bytes line.now name)) at.0 (position_of text.now (after_of here u)) to by from) (turn_of result tables.new) space.new room }
    ensures kept { tables.new.strings ≡ tables.old.strings }
{
    let worked = value(line, first, machine, tables, space);
    let Ok(Worked::Whole(limit, follow)) = worked else {
        return fails(machine, mismatch(worked));
    };
    with_step(
        text, line, here, at, name, from, limit, follow, machine, tables, found, space,
    )
}

// The name's type is tested first, then start, limit and step as each is worked out.
pub fn for_loop(
    text: &[u8],
    line: &[u8],
    here: Place,
    at: Place,
    name: Name,
    equals: Scanned,
    machine: Machine,
    tables: &mut Tables,
    found: Option<usize>,
    space: &mut [u8],
) -> Turned
    requires { Counts line.now name equals × (Settled (state_of machine tables.old) space.old × (FoundBelow machine.depth found × Lined text.now here.0)) }
    ensures does { (input room : List ℕ) (a b c : Formula) (u : Scanned) → Sound (state_of machine tables.old) input space.old room → Positioned text.now (after_of here u)
        → for_at line.now (variable_of line.now name) equals ≡ done (tree.for (variable_of line.now name) a b c) u
        → (entry : Record) → Turns text.now (state_of machine tables.old) input space.old room
        (Told text.now tables.old.numbers.names (is_loop_of (telling_of (name_bytes line.now name))) machine.depth found entry)
        (λ n. do_statement text.now at.0 (tree.for (variable_of line.now name) a b c) n (position_of text.now (after_of here u))) (turn_of result tables.new) space.new room }
    ensures kept { tables.new.strings ≡ tables.old.strings }
{
    let kind = name.kind;
    let Kind::Whole = kind else {
        return fails(machine, Error::TypeMismatch);
    };
    let start = token_at(line, equals.next);
    let worked = value(line, start, machine, tables, space);
    let Ok(Worked::Whole(from, to)) = worked else {
        return fails(machine, mismatch(worked));
    };
    let limit = token_at(line, to.next);
    with_limit(
        text, line, here, at, name, from, limit, machine, tables, found, space,
    )
}

// The number at an entry.
fn word_at(numbers: &Numbers, slot: usize) -> u16
    ensures { result ≡ word_in numbers.now.words slot }
{
    if slot < Tables::MOST {
        numbers.words[slot]
    } else {
        0
    }
}

// A number at the entry of a variable.
fn set_word(numbers: &mut Numbers, slot: usize, word: u16)
    ensures { numbers.new ≡ with_word numbers.old slot word }
{
    if slot < numbers.count && slot < Tables::MOST {
        numbers.words[slot] = word;
    }
}

// One turn more, or the loop ends.
fn turn(
    here: Place,
    ahead: Scanned,
    machine: Machine,
    tables: &mut Tables,
    slot: usize,
    entry: Record,
) -> Turned
    requires { slot < machine.depth }
    ensures does { (text input space room : List ℕ) (test : spec.Record → Bool) → LoopsOnly test
        → Sound (state_of machine tables.old) input space room → Positioned text (after_of here ahead)
        → Turns text (state_of machine tables.old) input space room (Told text tables.old.numbers.names test machine.depth (Some slot) entry)
        (λ n. next_on n (sought test n.records) (position_of text (after_of here ahead))) (turn_of result tables.new) space room }
    ensures kept { (tables.new.strings ≡ tables.old.strings) × ((tables.new.numbers.names ≡ tables.old.numbers.names) × (tables.new.numbers.count ≡ tables.old.numbers.count)) }
{
    let variable = entry.slot;
    match apply(
        Operator::Add,
        word_at(&tables.numbers, variable),
        entry.step,
    ) {
        Err(error) => fails(machine, error),
        Ok(word) => {
            set_word(&mut tables.numbers, variable, word);
            let mut m = machine;
            if passed(word, entry.limit, entry.step) {
                m.depth = slot;
                return goes_on(m, here, ahead);
            }
            m.depth = slot + 1;
            turned_to(m, Next::On(entry.back()))
        }
    }
}

// The loop that was found turns.
pub fn next_turn(
    here: Place,
    ahead: Scanned,
    machine: Machine,
    tables: &mut Tables,
    found: Option<usize>,
    entry: Record,
) -> Turned
    requires { FoundBelow machine.depth found }
    ensures does { (text input space room : List ℕ) (test : spec.Record → Bool) → LoopsOnly test
        → Sound (state_of machine tables.old) input space room → Positioned text (after_of here ahead)
        → Turns text (state_of machine tables.old) input space room (Told text tables.old.numbers.names test machine.depth found entry)
        (λ n. next_on n (sought test n.records) (position_of text (after_of here ahead))) (turn_of result tables.new) space room }
    ensures kept { (tables.new.strings ≡ tables.old.strings) × ((tables.new.numbers.names ≡ tables.old.numbers.names) × (tables.new.numbers.count ≡ tables.old.numbers.count)) }
{
    match found {
        None => fails(machine, Error::NextWithoutFor),
        Some(slot) => turn(here, ahead, machine, tables, slot, entry),
    }
}
