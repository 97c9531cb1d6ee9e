// The lines of a text: where one ends, its number, and the line with a number.
ghost use Rattle.std.specs.Prelude.{◌≡◌, ◌+◌, ◌≤◌, drop};
ghost use Rattle.loader.specs.Lines.{ending_of, extent_at, number_of, spanned, line_at, find_line};

use whole::leading_digits;
use words::{LineNumber, Place};

// Where a line ends, its end not counted, and where the next one begins.
#[derive(Clone, Copy)]
pub struct Extent {
    pub end: Place,
    pub next: Place,
}

// A line in its text: its number, where it begins, where the bytes after the number begin and end, and where the next begins.
#[derive(Clone, Copy)]
pub struct LineSpan {
    pub number: LineNumber,
    pub place: Place,
    pub body: Place,
    pub end: Place,
    pub next: Place,
}

const LINE_FEED: u8 = 10;

const CARRIAGE_RETURN: u8 = 13;

// How many bytes of a line's end stand at the front: byte 10 is one, and with a byte 13 just before it two.
#[tactic(auto, unfolding(crate::specs::Lines::ending_of))]
fn ending(rest: &[u8]) -> usize
    ensures { result ≡ ending_of rest.now }
{
    match rest {
        [LINE_FEED, ..] => 1,
        [CARRIAGE_RETURN, LINE_FEED, ..] => 2,
        _ => 0,
    }
}

// How far the line that begins at a place goes.
pub fn extent_at(text: &[u8], start: Place) -> Extent
    ensures { result ≡ extent_at start.0 (drop start.0 text.now) }
{
    for at in start.0..text.len() {
        let count = ending(&text[at..]);
        if count != 0 {
            return Extent {
                end: Place(at),
                next: Place(at + count),
            };
        }
    }
    let end = Place(start.0.max(text.len()));
    Extent { end, next: end }
}

// A line begins with its number's first digit; all its digits belong to it.
pub(crate) fn number_of(line: &[u8]) -> Option<(LineNumber, usize)>
    ensures { result ≡ number_of line.now }
{
    let digits = leading_digits(line);
    let value = digits.magnitude?;
    if digits.count == 0 || LineNumber::LARGEST < value {
        return None;
    }
    Some((LineNumber(value), digits.count))
}

// The span of a line, from where it begins, how far it goes, its number and how many digits that has.
fn spanned(start: Place, extent: Extent, number: LineNumber, count: usize) -> LineSpan
    requires { start.0 + count ≤ extent.end.0 }
    ensures { result ≡ spanned start.0 extent number count }
{
    LineSpan {
        number,
        place: start,
        body: Place(start.0 + count),
        end: extent.end,
        next: extent.next,
    }
}

// The line that begins at a place, where one with a number does.
pub fn line_at(text: &[u8], at: Place) -> Option<LineSpan>
    ensures { result ≡ line_at text.now at }
{
    if text.len() <= at.0 {
        return None;
    }
    let extent = extent_at(text, at);
    let (number, count) = number_of(&text[at.0..extent.end.0])?;
    Some(spanned(at, extent, number, count))
}

// The first line with a number, found by scanning from the start.
pub fn find_line(text: &[u8], number: LineNumber) -> Option<LineSpan>
    ensures { result ≡ find_line text.now number }
{
    let mut at = Place(0);
    while at.0 < text.len() {
        let extent = extent_at(text, at);
        if let Some((here, count)) = number_of(&text[at.0..extent.end.0]) {
            if here == number {
                return Some(spanned(at, extent, here, count));
            }
        }
        at = extent.next;
    }
    None
}
