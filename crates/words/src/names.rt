// Names of variables: where one stands, whose it is, and the characters that tell it from others.
ghost use Rattle.std.specs.Prelude.{◌≡◌, get_or, drop};
ghost use Rattle.words.specs.Classes.{capital_of};
ghost use Rattle.words.specs.Names.{name_bytes, telling_of, alike, entry_of};

use crate::classes::{byte_at, capital};
use crate::places::Place;

// The two types of a value.
#[derive(Clone, Copy, PartialEq, Eq)]
pub enum Kind {
    Whole,
    Text,
}

// A name where it stands in a line, its `$` or `%` not counted.
#[derive(Clone, Copy)]
pub struct Name {
    pub at: u16,
    pub len: u16,
    pub kind: Kind,
}

impl Name {
    // How many characters tell, and a name may have.
    pub const WIDTH: usize = 40;
}

// The characters of a name that tell, in capitals, and zeros after them.
pub type Telling = [u8; Name::WIDTH];

// A character of a name, in capitals; 0 where there is none.
pub fn character(line: &[u8], name: Name, index: usize) -> u8
    ensures { result ≡ capital_of (get_or (name_bytes line.now name) index 0) }
{
    if usize::from(name.len) <= index {
        return 0;
    }
    capital(byte_at(line, Place(usize::from(name.at) + index)))
}

pub fn telling_of(line: &[u8], name: Name) -> Telling
    ensures { result ≡ entry_of (telling_of (name_bytes line.now name)) }
{
    let mut telling = [0; Name::WIDTH];
    for count in 0..Name::WIDTH {
        let letter = character(line, name, count);
        if letter == 0 {
            return telling;
        }
        telling[count] = letter;
    }
    telling
}

// Whether a name is one variable's with the one that other bytes tell from a place on: it is compared where it stands.
pub fn is_told(tellings: &[u8], from: u16, line: &[u8], name: Name) -> bool
    ensures { result ≡ alike (drop from tellings.now) (telling_of (name_bytes line.now name)) }
{
    for index in 0..Name::WIDTH {
        let letter = character(line, name, index);
        if byte_at(tellings, Place(usize::from(from) + index)) != letter {
            return false;
        }
        if letter == 0 {
            return true;
        }
    }
    true
}
