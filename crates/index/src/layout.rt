// An index laid out: the table of lines, the number of pairs and the pairs, over zeros.
ghost use Rattle.std.specs.Prelude.{◌≡◌, ◌≤◌, ◌<◌, length, get_or};
ghost use Rattle.words.specs.Spellings.{same_bytes};
ghost use Rattle.index.specs.Index.{pairs_at, index_words};
ghost use Rattle.index.specs.bridge.Noting.{pair_room};
ghost use Rattle.index.specs.bridge.Laying.{laid_out};

use crate::making::Layout;
use crate::moves::put_words;

pub(crate) fn lay_out(index: &mut [u16], table: &[u16], count: u16, pairs: &[u16])
    requires { (length index.old ≡ index_words) × (length table.now ≤ pairs_at) × (length pairs.now ≤ pair_room) }
    ensures { index.new ≡ laid_out table.now count pairs.now }
{
    index.fill(0);
    put_words(index, 0, table);
    index[Layout::PAIRS] = count;
    put_words(index, Layout::PAIRS + 1, pairs);
}

// The word that such an index has at a place.
fn word_at(table: &[u16], count: u16, pairs: &[u16], i: usize) -> u16
    requires { (length table.now ≤ pairs_at) × (i < index_words) }
    ensures { result ≡ get_or (laid_out table.now count pairs.now) i 0 }
{
    if i < table.len() {
        return table[i];
    }
    if i < Layout::PAIRS {
        return 0;
    }
    if i == Layout::PAIRS {
        return count;
    }
    let behind = i - Layout::PAIRS - 1;
    if behind < pairs.len() {
        return pairs[behind];
    }
    0
}

// Whether words are such an index: word by word, so that no second index stands on the stack.
pub(crate) fn is_laid_out(index: &[u16], table: &[u16], count: u16, pairs: &[u16]) -> bool
    requires { (length index.now ≡ index_words) × (length table.now ≤ pairs_at) × (length pairs.now ≤ pair_room) }
    ensures { result ≡ same_bytes (laid_out table.now count pairs.now) index.now }
{
    for (i, word) in index.iter().enumerate() {
        if word_at(table, count, pairs, i) != *word {
            return false;
        }
    }
    true
}
