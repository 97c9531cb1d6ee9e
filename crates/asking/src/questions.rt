// Asking for one variable after a run.
ghost use Rattle.std.specs.Prelude.{◌≡◌, length};
ghost use Rattle.variables.specs.Tables.{names_in, numbers_in, slot_in};
ghost use Rattle.variables.specs.Variables.{word_of};
ghost use Rattle.words.specs.Names.{name_bytes, telling_of};
ghost use Rattle.asking.specs.Asking.{string_asked, ask_of};

use loader::Refusal;
use scanner::token_at;
use space::{Offset, fits};
use variables::{Numbers, Strings, Tables, offset_of, slot_of};
use words::{Kind, Name, Place, Token};

// A whole number, or a text by its part of the space.
#[derive(Clone, Copy)]
pub enum Asked {
    Whole(u16),
    Text(Offset, usize),
}

// An unset number is 0.
fn number_asked(numbers: Numbers, given: &[u8], name: Name) -> Asked
    ensures { result ≡ Asked.Whole (word_of (numbers_in (names_in numbers.names) numbers.words) (telling_of (name_bytes given.now name))) }
{
    let Numbers { names, words, .. } = numbers;
    match slot_of(&names, given, name) {
        None => Asked::Whole(0),
        Some(slot) => Asked::Whole(words[slot]),
    }
}

// An unset string is empty; the space handed in may end before another's bytes.
fn string_asked(strings: Strings, space: &[u8], given: &[u8], name: Name) -> Result<Asked, Refusal>
    ensures { result ≡ string_asked (slot_in strings.names (telling_of (name_bytes given.now name))) strings.lengths (length space.now) }
{
    let Strings { names, lengths, .. } = strings;
    let Some(slot) = slot_of(&names, given, name) else {
        return Ok(Asked::Text(Offset(0), 0));
    };
    let from = offset_of(&lengths, slot);
    let len = usize::from(lengths[slot]);
    if !fits(space.len(), from, len) {
        return Err(Refusal::NoVariable);
    }
    Ok(Asked::Text(from, len))
}

// The whole of what is given must be a name; 111 where it is not, or where the space ends before the string's bytes.
pub fn ask(tables: Tables, space: &[u8], name: &[u8]) -> Result<Asked, Refusal>
    ensures { result ≡ ask_of tables (length space.now) name.now }
{
    let scanned = token_at(name, Place(0));
    let next = scanned.next.0;
    let Token::Named(found) = scanned.token else {
        return Err(Refusal::NoVariable);
    };
    if found.at != 0 {
        return Err(Refusal::NoVariable);
    }
    if next != name.len() {
        return Err(Refusal::NoVariable);
    }
    match found.kind {
        Kind::Whole => Ok(number_asked(tables.numbers, name, found)),
        Kind::Text => string_asked(tables.strings, space, name, found),
    }
}
