// Loading: the tests of a text, in the order of the paper's table, the last five line by line.
ghost use Rattle.std.specs.Prelude.{◌≡◌, not, position};
ghost use Rattle.loader.specs.Loading.{is_plain, numbered, judged, load_of};

use crate::lines::{extent_at, number_of};
use crate::refusals::{Refusal, RefusedAt};
use words::{LineNumber, Place};

// The limits of a text.
pub struct Recipe;

impl Recipe {
    pub const LONGEST_TEXT: usize = 16384;

    pub const LONGEST_LINE: usize = 255;

    pub const MOST_LINES: usize = 512;
}

// A byte of 32 to 126, which a line may hold.
#[tactic(auto, unfolding(crate::specs::Loading::is_plain))]
fn is_plain(byte: u8) -> bool
    ensures { result ≡ is_plain byte }
{
    matches!(byte, b' '..=b'~')
}

// Where the first byte stands that a line may not hold.
fn first_foreign(line: &[u8]) -> Option<usize>
    ensures { result ≡ position (λ byte. not (is_plain byte)) line.now }
{
    line.iter().position(|byte| !is_plain(*byte))
}

// The tests of a line that so many lines stand before, and whose number may not be below `floor`.
fn judge(line: &[u8], before: usize, floor: u16) -> Result<LineNumber, RefusedAt>
    ensures { result ≡ judged line.now before floor }
{
    if Recipe::LONGEST_LINE < line.len() {
        return Err(RefusedAt {
            refusal: Refusal::LineTooLong,
            place: Place(0),
        });
    }
    if let Some(at) = first_foreign(line) {
        return Err(RefusedAt {
            refusal: Refusal::ForeignByte,
            place: Place(at),
        });
    }
    let Some((number, _)) = number_of(line) else {
        return Err(RefusedAt {
            refusal: Refusal::BadNumber,
            place: Place(0),
        });
    };
    numbered(number, before, floor)
}

// The tests of a line that has a number.
fn numbered(number: LineNumber, before: usize, floor: u16) -> Result<LineNumber, RefusedAt>
    ensures { result ≡ numbered number.0 before floor }
{
    if number.0 < floor {
        return Err(RefusedAt {
            refusal: Refusal::NotRising,
            place: Place(0),
        });
    }
    if Recipe::MOST_LINES <= before {
        return Err(RefusedAt {
            refusal: Refusal::TooManyLines,
            place: Place(0),
        });
    }
    Ok(number)
}

// Whether a text is a recipe.
pub fn load(text: &[u8]) -> Result<(), RefusedAt>
    ensures { result ≡ load_of text.now }
{
    if Recipe::LONGEST_TEXT < text.len() {
        return Err(RefusedAt {
            refusal: Refusal::TextTooLong,
            place: Place(0),
        });
    }
    let mut at = Place(0);
    let mut before = 0;
    let mut floor = 0;
    while at.0 < text.len() {
        let extent = extent_at(text, at);
        match judge(&text[at.0..extent.end.0], before, floor) {
            Ok(number) => floor = number.0 + 1,
            Err(bad) => {
                let place = Place(at.0 + bad.place.0);
                return Err(RefusedAt { place, ..bad });
            }
        }
        before += 1;
        at = extent.next;
    }
    Ok(())
}
