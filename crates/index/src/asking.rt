// Asking an index, whoever made it, without the text.
ghost use Rattle.std.specs.Prelude.{◌≡◌, ◌+◌, ◌-◌, min, length};
ghost use Rattle.space.specs.Moves.{overlaid};
ghost use Rattle.words.specs.Places.{place};
ghost use Rattle.index.specs.Asking.{line_in, callers_in};
ghost use Rattle.index.specs.bridge.Asking.{fitting};

use crate::making::{Index, Layout};
use loader::Recipe;
use rows::Row;
use words::{LineNumber, Place};

// A word that counts, as far as there is room for what it counts.
fn at_most(word: u16, most: usize) -> usize
    ensures { result ≡ min word most }
{
    usize::from(word).min(most)
}

fn place_of(word: u16) -> Place
    ensures { result ≡ place word }
{
    Place(usize::from(word))
}

// Where the line with a number starts.
pub fn line_in(index: &Index, number: LineNumber) -> Option<Place>
    ensures { result ≡ line_in index.now number }
{
    for row in 0..at_most(index[0], Recipe::MOST_LINES) {
        let at = 1 + Row::WIDTH * row;
        if index[at] == number.0 {
            return Some(place_of(index[at + 1]));
        }
    }
    None
}

// A line is put after those so far, if it is a caller and there is room.
fn put_if(callers: &mut [u16], count: usize, calls: bool, line: u16) -> usize
    ensures value { result ≡ count + length (fitting (length callers.old - count) calls line) }
    ensures callers_after { callers.new ≡ overlaid callers.old count (fitting (length callers.old - count) calls line) }
{
    if !calls {
        return count;
    }
    if callers.len() <= count {
        return count;
    }
    callers[count] = line;
    count + 1
}

// The lines that name a line, at the front of the room lent for them; how many there are. A text has no more of them than lines.
pub fn callers_in(
    index: &Index,
    number: LineNumber,
    callers: &mut [u16; Recipe::MOST_LINES],
) -> usize
    ensures value { result ≡ length (callers_in index.now number) }
    ensures callers_after { callers.new ≡ overlaid callers.old 0 (callers_in index.now number) }
{
    let mut count = 0;
    for i in 0..at_most(index[Layout::PAIRS], Layout::MOST_PAIRS) {
        let at = Layout::PAIRS + 1 + 2 * i;
        count = put_if(callers, count, index[at] == number.0, index[at + 1]);
    }
    count
}
