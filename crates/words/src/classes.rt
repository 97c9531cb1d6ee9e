// The classes of bytes, and the signs.
ghost use Rattle.std.specs.Prelude.{◌≡◌, get_or};
ghost use Rattle.words.specs.Classes.{capital_of, is_letter, sign_of, class_of};

use crate::places::Place;
use crate::symbols::{Sign, Token};
use crate::table::CLASSES;
use whole::Operator;

// What the reader tells a byte apart by.
#[derive(Clone, Copy, PartialEq, Eq)]
pub enum ByteClass {
    Letter,
    Digit,
    Blank,
    Sign,
    Quote,
    Other,
}

// The byte at a place; 0 past the line's end.
pub fn byte_at(line: &[u8], at: Place) -> u8
    ensures { result ≡ get_or line.now at.0 0 }
{
    line.get(at.0).copied().unwrap_or(0)
}

// A letter's capital; any other byte as it is.
#[tactic(auto, unfolding(crate::specs::Classes::capital_of))]
pub fn capital(byte: u8) -> u8
    ensures { result ≡ capital_of byte }
{
    byte.to_ascii_uppercase()
}

#[tactic(auto, unfolding(crate::specs::Classes::capital_of, crate::specs::Classes::is_letter))]
pub fn is_letter(byte: u8) -> bool
    ensures { result ≡ is_letter byte }
{
    byte.is_ascii_alphabetic()
}

// The sign that a byte is by itself.
#[tactic(auto, unfolding(whole::specs::Bytes::bytes, crate::specs::Spellings::meaning, crate::specs::Spellings::same_bytes, crate::specs::Classes::signs))]
pub fn sign_of(byte: u8) -> Option<Token>
    ensures { result ≡ sign_of byte }
{
    let token = match byte {
        b'(' => Token::Symbol(Sign::Open),
        b')' => Token::Symbol(Sign::Close),
        b',' => Token::Symbol(Sign::Comma),
        b';' => Token::Symbol(Sign::Semicolon),
        b':' => Token::Symbol(Sign::Colon),
        b'?' => Token::Symbol(Sign::Question),
        b'=' => Token::Symbol(Sign::Equal),
        b'<' => Token::Infix(Operator::Less),
        b'>' => Token::Infix(Operator::Greater),
        b'+' => Token::Infix(Operator::Add),
        b'-' => Token::Symbol(Sign::Minus),
        b'*' => Token::Infix(Operator::Multiply),
        b'\\' => Token::Infix(Operator::Divide),
        _ => return None,
    };
    Some(token)
}

// The class of a byte: one look into the table.
pub fn class_of(byte: u8) -> ByteClass
    ensures { result ≡ class_of byte }
{
    CLASSES[usize::from(byte)]
}
