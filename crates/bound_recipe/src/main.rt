// bound_recipe RECIPE
// Says how many steps a recipe can take, and writes a line: bounded and the number; not bounded; or refused, the number and the place.
#![tactic(auto)]

mod answers;

ghost use Rattle.std.specs.Bool.{OnTrue};
ghost use Rattle.std.specs.Io.KnownBytes.{Appends};
ghost use Rattle.bounding.specs.Bounding.{bound_of};
ghost use Rattle.bound_recipe.specs.Answers.{line_of};

use answers::line_of;
use console::{argument_count, complain, recipe_room, take_front, write_text};
use std::io::Write;

// The place of the argument; the program's own name is the first.
const RECIPE: usize = 1;

// Writes the line of a recipe, or says on standard error why it can't; whether it was written.
fn tell<W: Write, E: Write>(out: &mut W, err: &mut E, text: &[u8]) -> bool
    ensures { OnTrue result (Appends (W.contents out.old) (W.contents out.new) (line_of (bound_of text.now))) }
{
    write_text(out, err, line_of(text))
}

fn main(rt: HostRuntime) {
    let mut err = rt.stderr();
    if argument_count(&rt) != RECIPE + 1 {
        complain(&mut err, b"usage: bound_recipe RECIPE");
        return;
    }
    let mut text = recipe_room();
    let Some(len) = take_front(&rt, &mut err, RECIPE, &mut text) else {
        return;
    };
    tell(&mut rt.stdout(), &mut err, &text[..len]);
}
