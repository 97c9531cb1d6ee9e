// What importing answers, and the line that says what was refused.
ghost use Rattle.std.specs.Prelude.{length};
ghost use Rattle.readings.specs.Importing.{imported_of};
ghost use Rattle.console.specs.Answers.{Tells};
ghost use Rattle.import_readings.specs.Answers.{told_of};

use console::{Answer, refused_line};
use loader::{RefusedAt, refusal_number};
use readings::import_readings;
use whole::Text;

// Imports a file over the room.
pub(crate) fn answer_of(file: &[u8], out: &mut [u8]) -> Answer
    ensures { Tells (told_of file.now (imported_of file.now (length out.old))) result out.new }
{
    match import_readings(file, out) {
        Ok(count) => Answer {
            written: count,
            line: Text::empty(),
        },
        Err(RefusedAt { refusal, place }) => Answer {
            written: 0,
            line: refused_line(refusal_number(refusal), place.0 as u64),
        },
    }
}
