// A file of readings made lines, one a reading.
ghost use Rattle.std.specs.Prelude.{◌≡◌, ◌++◌, ◌+◌, ◌*◌, ◌≤◌, leb, length, drop};
ghost use Rattle.readings.specs.Importing.{imported_of, out_after};
ghost use Rattle.readings.specs.bridge.Groups.{Holds, line_for, lines_of_groups};

use crate::lines::{Line, line_of};
use crate::values::reading_of;
use loader::{Refusal, RefusedAt};
use space::{Offset, copy_in};
use words::Place;

// How many bytes a reading has.
const GROUP: usize = 4;

// The line of the reading that four bytes make.
fn line_for(group: [u8; GROUP]) -> Line
    ensures { Holds result (line_for group) }
{
    let [low, middle, high, exponent] = group;
    line_of(reading_of(low, middle, high, exponent))
}

// Whether the lines of a file fit in so many bytes.
fn lines_fit(file: &[u8], room: usize) -> bool
    ensures { result ≡ leb (length (lines_of_groups file.now)) room }
{
    let (groups, _) = file.as_chunks();
    let mut left = room;
    for group in groups {
        let len = line_for(*group).len;
        if left < len {
            return false;
        }
        left -= len;
    }
    true
}

// Writes the lines of a file to the front of the room; how many bytes they are.
fn write_lines(file: &[u8], out: &mut [u8]) -> usize
    requires { length (lines_of_groups file.now) ≤ length out.old }
    ensures value { result ≡ length (lines_of_groups file.now) }
    ensures out_after { out.new
        ≡ lines_of_groups file.now ++ drop (length (lines_of_groups file.now)) out.old }
{
    let (groups, _) = file.as_chunks();
    let mut at = 0;
    for group in groups {
        let line = line_for(*group);
        copy_in(out, Offset(at), &line.bytes[..line.len]);
        at += line.len;
    }
    at
}

// Imports a file. What is refused writes nothing.
pub fn import_readings(file: &[u8], out: &mut [u8]) -> Result<usize, RefusedAt>
    ensures value { result ≡ imported_of file.now (length out.old) }
    ensures out_after { out.new ≡ out_after file.now out.old }
{
    let len = file.len();
    let short = len % GROUP;
    if short != 0 {
        let place = len - short;
        return Err(RefusedAt {
            refusal: Refusal::ShortGroup,
            place: Place(place),
        });
    }
    if lines_fit(file, out.len()) {
        let written = write_lines(file, out);
        return Ok(written);
    }
    Err(RefusedAt {
        refusal: Refusal::NoRoom,
        place: Place(0),
    })
}
