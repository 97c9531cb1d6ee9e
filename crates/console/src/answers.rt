// What a program is to write of what it was asked.
ghost use Rattle.std.specs.Prelude.{List, ℕ};
ghost use Rattle.std.specs.Bool.{OnTrue};
ghost use Rattle.std.specs.Io.KnownBytes.{Appends};
ghost use Rattle.console.specs.Counts.{IsPrefixLen};
ghost use Rattle.console.specs.Answers.{Tells};

use crate::lines::{write, write_text};
use std::io::Write;
use whole::Text;

// How many bytes of its room, and the line after them, if any.
#[derive(Clone, Copy)]
pub struct Answer {
    pub written: usize,
    pub line: Text,
}

// Writes an answer that stands in its room, or says on standard error why it can't; whether it was written.
pub fn write_answer<W: Write, E: Write>(
    out: &mut W,
    err: &mut E,
    answer: Answer,
    room: &[u8],
) -> bool
    requires { IsPrefixLen answer.written room.now }
    ensures { (told : List ℕ) → Tells told answer room.now → OnTrue result (Appends (W.contents out.old) (W.contents out.new) told) }
{
    write(out, err, &room[..answer.written]) && write_text(out, err, answer.line)
}
