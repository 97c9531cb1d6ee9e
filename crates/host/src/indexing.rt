// The functions that a host links to ask who names a line. Each writes only what is lent to it.
ghost use Rattle.std.specs.Prelude.{◌≡◌, [], ◌∷◌, length};
ghost use Rattle.words.specs.Places.{line_number};
ghost use Rattle.space.specs.Moves.{overlaid};
ghost use Rattle.index.specs.Index.{indexed_of, index_after};
ghost use Rattle.index.specs.Asking.{line_in, callers_in};
ghost use Rattle.host.specs.Answers.{verdict_in};
ghost use Rattle.host.specs.Indexing.{indexed_as, start_in};

use crate::answers::{verdict_of, wide_size};
use crate::receipts::loaded_as;
use index::{Index, callers_in, index_of, line_in};
use loader::Recipe;
use words::{LineNumber, Place};

// Whether there is such a line, and where it starts.
fn start_of(start: Option<Place>) -> [u64; 2]
    ensures { result ≡ start_in start }
{
    match start {
        Some(place) => [1, wide_size(place.0)],
        None => [0, 0],
    }
}

// Makes the index of a text; a refusal leaves what was there.
#[unsafe(no_mangle)]
pub extern "C" fn quernhem_index(text: &[u8], index: &mut Index, verdict: &mut [u64; 4])
    ensures { (index.new ≡ index_after text.now index.old)
        × (verdict.new ≡ verdict_in (indexed_as (indexed_of text.now))) }
{
    *verdict = verdict_of(loaded_as(index_of(text, index)));
}

// Where a line starts, by an index alone.
#[unsafe(no_mangle)]
pub extern "C" fn quernhem_line(index: &Index, number: u16, found: &mut [u64; 2])
    ensures { found.new ≡ start_in (line_in index.now (line_number number)) }
{
    *found = start_of(line_in(index, LineNumber(number)));
}

// Which lines name a line, by an index alone.
#[unsafe(no_mangle)]
pub extern "C" fn quernhem_callers(
    index: &Index,
    number: u16,
    callers: &mut [u16; Recipe::MOST_LINES],
    count: &mut [u64; 1],
)
    ensures { (callers.new ≡ overlaid callers.old 0 (callers_in index.now (line_number number)))
        × (count.new ≡ length (callers_in index.now (line_number number)) ∷ []) }
{
    let named = callers_in(index, LineNumber(number), callers);
    *count = [wide_size(named)];
}
