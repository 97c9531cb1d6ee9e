// Making an index, and testing one against a text.
ghost use Rattle.std.specs.Prelude.{◌≡◌};
ghost use Rattle.index.specs.Index.{indexed_of, index_after, is_index_of};

use crate::layout::{is_laid_out, lay_out};
use crate::pairs::note_lines;
use crate::tables::used_words;
use loader::{Refusal, RefusedAt, load};
use rows::{Row, make_rows};
use words::Place;

// How an index is laid out.
pub struct Layout;

impl Layout {
    pub const MOST_PAIRS: usize = 1024;

    // Where the number of pairs stands: the table of lines is before it, and the pairs are after it.
    pub(crate) const PAIRS: usize = Row::CELLS;

    pub(crate) const PAIR_WORDS: usize = 2 * Layout::MOST_PAIRS;

    pub const WORDS: usize = Layout::PAIRS + 1 + Layout::PAIR_WORDS;
}

pub type Index = [u16; Layout::WORDS];

// The index of a text. What is refused leaves the index as it was.
pub fn index_of(text: &[u8], index: &mut Index) -> Result<(), RefusedAt>
    ensures value { result ≡ indexed_of text.now }
    ensures index_after { index.new ≡ index_after text.now index.old }
{
    load(text)?;
    let mut rows = [0; Row::CELLS];
    make_rows(text, &mut rows);
    let mut pairs = [0; Layout::PAIR_WORDS];
    let Some(count) = note_lines(text, &rows, &mut pairs) else {
        return Err(RefusedAt {
            refusal: Refusal::TooManyPairs,
            place: Place(0),
        });
    };
    let used = used_words(rows[0]);
    let end = 2 * count;
    lay_out(index, &rows[..used], count as u16, &pairs[..end]);
    Ok(())
}

// Whether words are the index of a text: they are compared with what it would be laid out of. Of as many as no index has, nothing is read.
pub fn is_index_of(text: &[u8], index: &[u16]) -> bool
    ensures { result ≡ is_index_of text.now index.now }
{
    if index.len() != Layout::WORDS {
        return false;
    }
    let Ok(()) = load(text) else {
        return false;
    };
    let mut rows = [0; Row::CELLS];
    make_rows(text, &mut rows);
    let mut pairs = [0; Layout::PAIR_WORDS];
    let Some(count) = note_lines(text, &rows, &mut pairs) else {
        return false;
    };
    let used = used_words(rows[0]);
    let end = 2 * count;
    is_laid_out(index, &rows[..used], count as u16, &pairs[..end])
}
