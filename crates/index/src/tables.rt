// The table of lines that a run goes by, from an index or from the text.
ghost use Rattle.std.specs.Prelude.{◌≡◌, ◌+◌, ◌*◌, length, Ok};
ghost use Rattle.loader.specs.Loading.{load_of};
ghost use Rattle.rows.specs.bridge.Rows.{width, cells, Tabled};

use crate::making::is_index_of;
use crate::moves::put_words;
use rows::{Row, make_rows};

// How many words of a table so many rows take, with the number of them.
pub(crate) fn used_words(count: u16) -> usize
    ensures { result ≡ 1 + width * count }
{
    1 + Row::WIDTH * usize::from(count)
}

// The table of a text that loads: an index has it ready where it is this text's.
pub fn rows_by(text: &[u8], index: &[u16], rows: &mut [u16])
    requires { (load_of text.now ≡ Ok tt) × (length rows.old ≡ cells) }
    ensures { Tabled text.now rows.new }
{
    if is_index_of(text, index) {
        put_words(rows, 0, &index[..Row::CELLS]);
        return;
    }
    make_rows(text, rows);
}
