// run_recipe RECIPE INPUT [SPACE [ROOM [BUDGET [RECORDS]]]]
// Runs a recipe on an input, and writes what it prints and then a line: outcome, number, line (place if refused) and steps.
#![tactic(auto)]

mod answers;

ghost use Rattle.std.specs.Prelude.{◌≤◌};
ghost use Rattle.std.specs.Bool.{OnTrue};
ghost use Rattle.std.specs.Io.KnownBytes.{Appends};
ghost use Rattle.machine.specs.Machine.{lent_by};
ghost use Rattle.runner.specs.Run.{run_of};
ghost use Rattle.run_recipe.specs.Answers.{told_of};

use answers::answer_of;
use console::{
    NumberArgument, Untaken, argument_count, complain, complain_of, recipe_room, room, take_file,
    take_front, write_answer,
};
use machine::Machine;
use std::env::Env;
use std::io::Write;

// Places among the arguments, of which the program's own name is the first.
const RECIPE: usize = 1;

const INPUT: usize = 2;

// Over the usual space the runner refuses (106), and so it does over 256 records (107).
const SPACE: NumberArgument<'static> = NumberArgument {
    name: b"SPACE",
    place: 3,
    usual: Machine::LONGEST_SPACE as u32,
    most: 32768,
};

const ROOM: NumberArgument<'static> = NumberArgument {
    name: b"ROOM",
    place: 4,
    usual: 65536,
    most: 1048576,
};

const BUDGET: NumberArgument<'static> = NumberArgument {
    name: b"BUDGET",
    place: 5,
    usual: 1000000,
    most: 4294967295,
};

const RECORDS: NumberArgument<'static> = NumberArgument {
    name: b"RECORDS",
    place: 6,
    usual: 32,
    most: 257,
};

// How many bytes of string space and of room for output are lent, the budget, and how many records there are.
#[derive(Clone, Copy)]
struct Limits {
    space: usize,
    room: usize,
    budget: u32,
    records: usize,
    ghost within: { (space ≤ 32768) × (room ≤ 1048576) },
}

// The limits that the arguments give; none where one is bad, of which it is said why.
fn limits_given<R: Env, W: Write>(rt: &R, err: &mut W) -> Option<Limits> {
    let space = SPACE.given(rt, err)?;
    let room = ROOM.given(rt, err)?;
    let budget = BUDGET.given(rt, err)?;
    let records = RECORDS.given(rt, err)?;
    Some(Limits {
        space: space as usize,
        room: room as usize,
        budget,
        records: records as usize,
    })
}

// Writes what a run prints and its line, or says on standard error why it can't; whether they were written.
fn run_and_tell<W: Write, E: Write>(
    out: &mut W,
    err: &mut E,
    text: &[u8],
    input: &[u8],
    space: &mut [u8],
    room: &mut [u8],
    budget: u32,
    records: usize,
) -> bool
    ensures { OnTrue result (Appends (W.contents out.old) (W.contents out.new)
        (told_of (run_of text.now input.now (lent_by space.old room.old records) budget))) }
{
    let answer = answer_of(text, input, space, room, budget, records);
    write_answer(out, err, answer, room)
}

fn run_within(rt: &HostRuntime, text: &[u8], input: &[u8], limits: Limits) {
    let mut strings = room::<32768>();
    let mut output = room::<1048576>();
    run_and_tell(
        &mut rt.stdout(),
        &mut rt.stderr(),
        text,
        input,
        &mut strings[..limits.space],
        &mut output[..limits.room],
        limits.budget,
        limits.records,
    );
}

fn run_recipe(rt: &HostRuntime, limits: Limits) {
    let mut err = rt.stderr();
    let mut text = recipe_room();
    let Some(len) = take_front(rt, &mut err, RECIPE, &mut text) else {
        return;
    };
    let mut input = room::<1048576>();
    match take_file(rt, &mut err, INPUT, &mut input) {
        Ok(count) => run_within(rt, &text[..len], &input[..count], limits),
        Err(Untaken::Longer) => {
            complain_of(rt, &mut err, b"INPUT is longer than 1048576 bytes", INPUT);
        }
        Err(Untaken::Unread) => {}
    }
}

fn main(rt: HostRuntime) {
    let mut err = rt.stderr();
    let count = argument_count(&rt);
    if count <= INPUT || RECORDS.place + 1 < count {
        complain(
            &mut err,
            b"usage: run_recipe RECIPE INPUT [SPACE [ROOM [BUDGET [RECORDS]]]]",
        );
        return;
    }
    if let Some(limits) = limits_given(&rt, &mut err) {
        run_recipe(&rt, limits);
    }
}
