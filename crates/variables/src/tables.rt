// The variables: tables of names in the order of first assignment, unused entries zero.
ghost use Rattle.std.specs.Prelude.{◌≡◌, ◌<◌, ◌≤◌, min, sum, length, take};
ghost use Rattle.words.specs.Names.{name_bytes, telling_of};
ghost use Rattle.variables.specs.Tables.{slot_in, sum_of, empty_tables};
ghost use Rattle.variables.specs.Variables.{most_variables};

use space::Offset;
use words::{Name, character, is_told};

// The names of the variables of a kind, one after the other.
pub type NameTable = [u8; Tables::NAMES];

// The number variables: a name each, and a word.
#[derive(Clone, Copy)]
pub struct Numbers {
    pub names: NameTable,
    pub words: [u16; Tables::MOST],
    pub count: usize,
}

// The string variables: a name each, and how many bytes they have in the string space, where they stand joined.
#[derive(Clone, Copy)]
pub struct Strings {
    pub names: NameTable,
    pub lengths: [u8; Tables::MOST],
    pub count: usize,
}

#[derive(Clone, Copy)]
pub struct Tables {
    pub numbers: Numbers,
    pub strings: Strings,
}

impl Tables {
    // How many variables of a kind there can be.
    pub const MOST: usize = 64;

    // How many bytes their names have.
    pub const NAMES: usize = Name::WIDTH * Tables::MOST;

    pub fn empty() -> Tables
        ensures { result ≡ empty_tables }
    {
        let numbers = Numbers {
            names: [0; Tables::NAMES],
            words: [0; Tables::MOST],
            count: 0,
        };
        let strings = Strings {
            names: [0; Tables::NAMES],
            lengths: [0; Tables::MOST],
            count: 0,
        };
        Tables { numbers, strings }
    }
}

// The entry with a name that stands in a line; most others begin otherwise.
pub fn slot_of(names: &NameTable, line: &[u8], name: Name) -> Option<usize>
    ensures { result ≡ slot_in names.now (telling_of (name_bytes line.now name)) }
{
    let first = character(line, name, 0);
    for slot in 0..Tables::MOST {
        let from = Name::WIDTH * slot;
        if names[from] == first && is_told(names, from as u16, line, name) {
            return Some(slot);
        }
    }
    None
}

// How many bytes strings of some lengths have together.
fn total(lengths: &[u8]) -> usize
    requires { length lengths.now ≤ most_variables }
    ensures { result ≡ sum lengths.now }
{
    lengths.iter().map(|&len| usize::from(len)).sum()
}

// Where the string of an entry begins: as far in as those before it have bytes together.
pub fn offset_of(lengths: &[u8; Tables::MOST], slot: usize) -> Offset
    ensures { result.0 ≡ sum_of (take (min slot most_variables) lengths.now) }
{
    Offset(total(&lengths[..slot.min(Tables::MOST)]))
}
