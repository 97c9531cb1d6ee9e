// callers_of RECIPE LINE
// Writes where a line starts, or that it is missing, and a line for each line that names it; or one line: refused, the number and the place.
#![tactic(auto)]

mod answers;

ghost use Rattle.std.specs.Bool.{OnTrue};
ghost use Rattle.std.specs.Io.KnownBytes.{Appends};
ghost use Rattle.callers_of.specs.Answers.{answer_to};

use answers::answer_of;
use console::{NumberArgument, argument_count, complain, recipe_room, room, take_front, write};
use std::io::Write;
use words::LineNumber;

// Places among the arguments, of which the program's own name is the first.
const RECIPE: usize = 1;

const LINE: NumberArgument<'static> = NumberArgument {
    name: b"LINE",
    place: 2,
    usual: 0,
    most: LineNumber::LARGEST as u32,
};

// Writes what a recipe says of a line, or says on standard error why it can't; whether it was written.
fn tell<W: Write, E: Write>(out: &mut W, err: &mut E, text: &[u8], number: LineNumber) -> bool
    ensures { OnTrue result (Appends (W.contents out.old) (W.contents out.new) (answer_to text.now number)) }
{
    // room for a line and 512 callers, each in at most 255 bytes
    let mut room = room::<131072>();
    let count = answer_of(text, number, &mut room);
    write(out, err, &room[..count])
}

fn main(rt: HostRuntime) {
    let mut err = rt.stderr();
    if argument_count(&rt) != LINE.place + 1 {
        complain(&mut err, b"usage: callers_of RECIPE LINE");
        return;
    }
    let Some(number) = LINE.given(&rt, &mut err) else {
        return;
    };
    let mut text = recipe_room();
    let Some(len) = take_front(&rt, &mut err, RECIPE, &mut text) else {
        return;
    };
    tell(
        &mut rt.stdout(),
        &mut err,
        &text[..len],
        LineNumber(number as u16),
    );
}
