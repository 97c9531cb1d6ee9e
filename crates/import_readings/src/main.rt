// import_readings FILE [ROOM]
// Writes a line for each reading in a file of an old machine; or one line: refused, the number and the place.
#![tactic(auto)]

mod answers;

ghost use Rattle.std.specs.Prelude.{◌≤◌, length};
ghost use Rattle.std.specs.Bool.{OnTrue};
ghost use Rattle.std.specs.Io.KnownBytes.{Appends};
ghost use Rattle.readings.specs.Importing.{imported_of};
ghost use Rattle.import_readings.specs.Answers.{told_of};

use answers::answer_of;
use console::{
    NumberArgument, Untaken, argument_count, complain, complain_of, room, take_file, write_answer,
};
use std::io::Write;

// Places among the arguments, of which the program's own name is the first.
const FILE: usize = 1;

const ROOM: NumberArgument<'static> = NumberArgument {
    name: b"ROOM",
    place: 2,
    usual: 1048576,
    most: 1048576,
};

// Writes what importing a file answers, or says on standard error why it can't; whether it was written.
fn import_and_tell<W: Write, E: Write>(
    out: &mut W,
    err: &mut E,
    file: &[u8],
    room: &mut [u8],
) -> bool
    ensures { OnTrue result (Appends (W.contents out.old) (W.contents out.new)
        (told_of file.now (imported_of file.now (length room.old)))) }
{
    let answer = answer_of(file, room);
    write_answer(out, err, answer, room)
}

fn import_within(rt: &HostRuntime, file: &[u8], lent: usize)
    requires { lent ≤ 1048576 }
{
    let mut out = room::<1048576>();
    import_and_tell(&mut rt.stdout(), &mut rt.stderr(), file, &mut out[..lent]);
}

fn import_file(rt: &HostRuntime, lent: usize)
    requires { lent ≤ 1048576 }
{
    let mut err = rt.stderr();
    let mut file = room::<131072>();
    match take_file(rt, &mut err, FILE, &mut file) {
        Ok(len) => import_within(rt, &file[..len], lent),
        Err(Untaken::Longer) => {
            complain_of(rt, &mut err, b"FILE is longer than 131072 bytes", FILE);
        }
        Err(Untaken::Unread) => {}
    }
}

fn main(rt: HostRuntime) {
    let mut err = rt.stderr();
    let count = argument_count(&rt);
    if count <= FILE || ROOM.place + 1 < count {
        complain(&mut err, b"usage: import_readings FILE [ROOM]");
        return;
    }
    if let Some(lent) = ROOM.given(&rt, &mut err) {
        import_file(&rt, lent as usize);
    }
}
