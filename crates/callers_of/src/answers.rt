// The lines that say where a line starts and which lines name it, in a room, so that a program writes all of them at once.
ghost use Rattle.std.specs.Prelude.{◌≡◌, List, ℕ, ◌+◌, ◌*◌, ◌≤◌, length};
ghost use Rattle.whole.specs.Texts.{held};
ghost use Rattle.space.specs.Moves.{overlaid};
ghost use Rattle.callers_of.specs.Answers.{start_line, caller_line, caller_lines, answer_to};
ghost use Rattle.callers_of.specs.bridge.Telling.{told_by, room};

use console::{line, refused_line};
use index::{Index, Layout, callers_in, index_of, line_in};
use loader::{Recipe, RefusedAt, refusal_number};
use space::{Offset, copy_in};
use whole::Text;
use words::{LineNumber, Place};

#[tactic(auto, unfolding(whole::specs::Bytes::bytes))]
fn started(number: LineNumber, start: Option<Place>) -> Text
    ensures { result ≡ held (start_line number start) }
{
    match start {
        Some(place) => line(b"present", &[u64::from(number.0), place.0 as u64]),
        None => line(b"missing", &[u64::from(number.0)]),
    }
}

#[tactic(auto, unfolding(whole::specs::Bytes::bytes))]
fn caller(number: u16) -> Text
    ensures { result ≡ held (caller_line number) }
{
    line(b"caller", &[u64::from(number)])
}

// A line after the bytes so far; where it ends.
fn put_line(out: &mut [u8], at: usize, line: Text) -> usize
    requires { at + 255 ≤ length out.old }
    ensures upper_bound { result ≤ at + 255 }
    ensures by_index { (said : List ℕ) → line ≡ held said → (result ≡ at + length said) × (out.new ≡ overlaid out.old at said) }
{
    let len = usize::from(line.len);
    copy_in(out, Offset(at), &line.bytes[..len]);
    at + len
}

// A line for each of some lines that name it.
fn put_callers(out: &mut [u8], at: usize, callers: &[u16]) -> usize
    requires { at + 255 * length callers.now ≤ length out.old }
    ensures upper_bound { (result ≤ at + 255 * length callers.now) × (result ≡ at + length (caller_lines callers.now)) }
    ensures out_after { out.new ≡ overlaid out.old at (caller_lines callers.now) }
{
    let mut end = at;
    for number in callers {
        end = put_line(out, end, caller(*number));
    }
    end
}

// What an index says of a line.
fn told(index: &Index, number: LineNumber, out: &mut [u8]) -> usize
    requires { length out.old ≡ room }
    ensures upper_bound { (result ≤ room) × (result ≡ length (told_by index.now number)) }
    ensures out_after { out.new ≡ overlaid out.old 0 (told_by index.now number) }
{
    let mut callers = [0; Recipe::MOST_LINES];
    let count = callers_in(index, number, &mut callers);
    let line = started(number, line_in(index, number));
    let end = put_line(out, 0, line);
    put_callers(out, end, &callers[..count])
}

// What is to be written of a text and a line, at the front of the room; how many bytes it has.
pub(crate) fn answer_of(text: &[u8], number: LineNumber, out: &mut [u8]) -> usize
    requires { length out.old ≡ room }
    ensures upper_bound { (result ≤ room) × (result ≡ length (answer_to text.now number)) }
    ensures out_after { out.new ≡ overlaid out.old 0 (answer_to text.now number) }
{
    let mut index = [0; Layout::WORDS];
    match index_of(text, &mut index) {
        Ok(()) => told(&index, number, out),
        Err(RefusedAt { refusal, place }) => {
            let line = refused_line(refusal_number(refusal), place.0 as u64);
            put_line(out, 0, line)
        }
    }
}
