// compare_recipes OLD NEW [ROOM]
// Writes a record for each line number that differs; or one line: refused, the number, the place and which edition.
#![tactic(auto)]

mod answers;

ghost use Rattle.std.specs.Prelude.{◌≤◌, length};
ghost use Rattle.std.specs.Bool.{OnTrue};
ghost use Rattle.std.specs.Io.KnownBytes.{Appends};
ghost use Rattle.compare.specs.Comparing.{compared_of};
ghost use Rattle.compare_recipes.specs.Answers.{told_of};

use answers::answer_of;
use console::{
    NumberArgument, argument_count, complain, recipe_room, room, take_front, write_answer,
};
use std::io::Write;

// Places among the arguments, of which the program's own name is the first.
const OLD: usize = 1;

const NEW: usize = 2;

const ROOM: NumberArgument<'static> = NumberArgument {
    name: b"ROOM",
    place: 3,
    usual: 65536,
    most: 1048576,
};

// Writes what comparing two editions answers, or says on standard error why it can't; whether it was written.
fn compare_and_tell<W: Write, E: Write>(
    out: &mut W,
    err: &mut E,
    old: &[u8],
    new: &[u8],
    room: &mut [u8],
) -> bool
    ensures { OnTrue result (Appends (W.contents out.old) (W.contents out.new)
        (told_of old.now new.now (compared_of old.now new.now (length room.old)))) }
{
    let answer = answer_of(old, new, room);
    write_answer(out, err, answer, room)
}

fn compare_within(rt: &HostRuntime, old: &[u8], new: &[u8], lent: usize)
    requires { lent ≤ 1048576 }
{
    let mut out = room::<1048576>();
    compare_and_tell(
        &mut rt.stdout(),
        &mut rt.stderr(),
        old,
        new,
        &mut out[..lent],
    );
}

// Nothing where an edition can't be read, of which it is said why.
fn compare_files(rt: &HostRuntime, lent: usize) -> Option<()>
    requires { lent ≤ 1048576 }
{
    let mut err = rt.stderr();
    let mut old = recipe_room();
    let old_len = take_front(rt, &mut err, OLD, &mut old)?;
    let mut new = recipe_room();
    let new_len = take_front(rt, &mut err, NEW, &mut new)?;
    compare_within(rt, &old[..old_len], &new[..new_len], lent);
    Some(())
}

fn main(rt: HostRuntime) {
    let mut err = rt.stderr();
    let count = argument_count(&rt);
    if count <= NEW || ROOM.place + 1 < count {
        complain(&mut err, b"usage: compare_recipes OLD NEW [ROOM]");
        return;
    }
    if let Some(lent) = ROOM.given(&rt, &mut err) {
        compare_files(&rt, lent as usize);
    }
}
