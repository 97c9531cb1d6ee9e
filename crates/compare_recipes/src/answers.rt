// What comparing answers, and the line that says what was refused.
ghost use Rattle.std.specs.Prelude.{◌≡◌, ◌≤◌, length};
ghost use Rattle.whole.specs.Texts.{held};
ghost use Rattle.compare.specs.Comparing.{compared_of};
ghost use Rattle.console.specs.Answers.{Tells};
ghost use Rattle.compare_recipes.specs.Answers.{refused_line, told_of};

use compare::{Rejected, compare};
use console::{Answer, end_line, put_bytes, put_field};
use loader::{RefusedAt, refusal_number};
use whole::Text;

// `refused`, the number and the place, parted by tabs, and more fields.
fn refused(why: RefusedAt, more: &[u8]) -> Text
    requires { length more.now ≤ 4 }
    ensures { result ≡ held (refused_line why.refusal why.place more.now) }
{
    let number = refusal_number(why.refusal);
    let word = put_bytes(Text::empty(), b"refused");
    let numbered = put_field(word, number as u64);
    let placed = put_field(numbered, why.place.0 as u64);
    let named = put_bytes(placed, more);
    end_line(named)
}

// A line alone.
fn only(line: Text) -> Answer
    ensures { (result.written ≡ 0) × (result.line ≡ line) }
{
    Answer { written: 0, line }
}

// Compares two editions over the room.
pub(crate) fn answer_of(old: &[u8], new: &[u8], out: &mut [u8]) -> Answer
    ensures { Tells
        (told_of old.now new.now (compared_of old.now new.now (length out.old)))
        result out.new }
{
    match compare(old, new, out) {
        Ok(written) => Answer {
            written,
            line: Text::empty(),
        },
        Err(Rejected::Old(why)) => only(refused(why, b"\told")),
        Err(Rejected::New(why)) => only(refused(why, b"\tnew")),
        Err(Rejected::Room(why)) => only(refused(why, b"")),
    }
}
