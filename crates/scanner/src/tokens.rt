// The token at a place of a line.
ghost use Rattle.std.specs.Prelude.{◌≡◌, true, ℕ, ◌+◌, ◌^◌, ◌≤◌, ◌<◌, length, drop};
ghost use Rattle.whole.specs.Bytes.{leading};
ghost use Rattle.words.specs.Classes.{is_hex, hex_digit, pair_of};
ghost use Rattle.scanner.specs.Tokens.{◌upto◌, unreadable, mark_of, kind_of, name_token, marked, word_token, number_token, hex_from, hex_token, text_token, sign_token, other_token, token_at};

use crate::runs::{Run, run_end};
use whole::{Operator, leading_digits};
use words::{
    ByteClass, Kind, LineNumber, Name, Place, Quotation, Scanned, Token, Word, WordFound, byte_at,
    capital, class_of, sign_of, word_of,
};

// What follows a word at once.
#[derive(Clone, Copy, PartialEq, Eq)]
pub enum Mark {
    Dollar,
    Percent,
    Bare,
}

// A token that ends before a place.
fn up_to(token: Token, next: Place) -> Scanned
    ensures { result ≡ (token upto next.0) }
{
    Scanned { token, next }
}

// Nothing that reads.
fn unreadable(at: Place) -> Scanned
    ensures { result ≡ unreadable at.0 }
{
    up_to(Token::Unreadable, at)
}

// The `$` or `%` that stands right after a word.
fn mark_at(line: &[u8], at: Place) -> Mark
    ensures { result ≡ mark_of (drop at.0 line.now) }
{
    match byte_at(line, at) {
        b'$' => Mark::Dollar,
        b'%' => Mark::Percent,
        _ => Mark::Bare,
    }
}

// A reserved word that no mark may follow.
fn plain(token: Token, mark: Mark, at: Place, after: Place) -> Scanned
    ensures { (n end : ℕ) → after.0 ≡ at.0 + n → result ≡ marked (WordFound.Plain token) mark at.0 n end }
{
    match mark {
        Mark::Bare => up_to(token, after),
        Mark::Dollar | Mark::Percent => unreadable(at),
    }
}

// A reserved word that its own `$` must follow.
fn dollared(token: Token, mark: Mark, at: Place, after: Place) -> Scanned
    requires { after.0 < 2 ^ 63 }
    ensures { (n end : ℕ) → after.0 ≡ at.0 + n → result ≡ marked (WordFound.Dollared token) mark at.0 n end }
{
    match mark {
        Mark::Dollar => up_to(token, Place(after.0 + 1)),
        Mark::Percent | Mark::Bare => unreadable(at),
    }
}

// A name of so many letters and digits, whose mark tells its kind.
fn name_token(mark: Mark, at: u16, len: u16) -> Token
    ensures { result ≡ name_token at len (kind_of mark) }
{
    let kind = match mark {
        Mark::Dollar => Kind::Text,
        Mark::Percent | Mark::Bare => Kind::Whole,
    };
    Token::Named(Name { at, len, kind })
}

// A name, with the mark after it; one that is too long does not read.
fn named(mark: Mark, at: Place, after: Place) -> Scanned
    requires { (at.0 ≤ after.0) × (after.0 < 2 ^ 63) }
    ensures { (n end : ℕ) → after.0 ≡ at.0 + n → result ≡ marked WordFound.Free mark at.0 n end }
{
    let len = after.0 - at.0;
    if Name::WIDTH < len || Place::FURTHEST < at.0 {
        return unreadable(at);
    }
    let token = name_token(mark, at.0 as u16, len as u16);
    match mark {
        Mark::Bare => up_to(token, after),
        Mark::Dollar | Mark::Percent => up_to(token, Place(after.0 + 1)),
    }
}

// The value of a hexadecimal digit.
fn hex_digit(byte: u8) -> u16
    requires { is_hex byte ≡ true }
    ensures { (result ≡ hex_digit byte) × (result < 16) }
{
    if byte <= b'9' {
        return u16::from(byte - b'0');
    }
    u16::from(capital(byte) - b'A') + 10
}

// Up to four hexadecimal digits, read as 16 bits.
fn hex_value(digits: &[u8]) -> u16
    requires { (length digits.now ≤ 4) × (leading is_hex digits.now ≡ digits.now) }
    ensures { result ≡ hex_from 0 digits.now }
{
    let mut value = 0;
    for digit in digits {
        value = value * 16 + hex_digit(*digit);
    }
    value
}

const MOST_HEX_DIGITS: usize = 4;

// Two signs that are one comparison, with no blank between them.
fn pair_of(first: u8, second: u8) -> Option<Token>
    ensures { result ≡ pair_of first second }
{
    let operator = match (first, second) {
        (b'<', b'>') => Operator::Unequal,
        (b'<', b'=') => Operator::AtMost,
        (b'>', b'=') => Operator::AtLeast,
        _ => return None,
    };
    Some(Token::Infix(operator))
}

// A place within a line, where a token begins.
#[derive(Clone, Copy)]
struct Start<'a> {
    line: &'a [u8],
    at: Place,
    ghost inside: { at.0 < length line.now },
}

impl Start<'_> {
    // A run of letters and digits that begins with a letter is one word.
    fn word(self) -> Scanned
        ensures { result ≡ word_token (length self.entry.line.now) self.entry.at.0 (drop self.entry.at.0 self.entry.line.now) }
    {
        let after = run_end(self.line, self.at, Run::Word);
        let mark = mark_at(self.line, after);
        // No reserved word has one letter.
        if after.0 == self.at.0 + 1 {
            return named(mark, self.at, after);
        }
        match word_of(&self.line[self.at.0..after.0]) {
            WordFound::Plain(token) => plain(token, mark, self.at, after),
            WordFound::Dollared(token) => dollared(token, mark, self.at, after),
            WordFound::Remark => up_to(Token::Keyword(Word::Rem), Place(self.line.len())),
            WordFound::Items => up_to(Token::Keyword(Word::Data), after),
            WordFound::Free => named(mark, self.at, after),
        }
    }

    // Digits are a number up to 32767, and a line number only up to 65529.
    fn number(self) -> Scanned
        ensures { result ≡ number_token self.entry.at.0 (drop self.entry.at.0 self.entry.line.now) }
    {
        let digits = leading_digits(&self.line[self.at.0..]);
        let next = Place(self.at.0 + digits.count);
        match digits.magnitude {
            Some(value) if value <= Token::LARGEST_NUMBER => up_to(Token::Number(value), next),
            Some(value) if value <= LineNumber::LARGEST => {
                up_to(Token::LineOnly(LineNumber(value)), next)
            }
            _ => unreadable(self.at),
        }
    }

    // `&H` with 1 to 4 hexadecimal digits.
    fn hex(self) -> Scanned
        ensures { result ≡ hex_token self.entry.at.0 (drop self.entry.at.0 self.entry.line.now) }
    {
        if capital(byte_at(self.line, Place(self.at.0 + 1))) != b'H' {
            return unreadable(self.at);
        }
        let first = self.at.0 + 2;
        let next = run_end(self.line, Place(first), Run::Hex);
        let count = next.0 - first;
        if count == 0 || MOST_HEX_DIGITS < count {
            return unreadable(self.at);
        }
        let value = hex_value(&self.line[first..next.0]);
        up_to(Token::Hexadecimal(value), next)
    }

    // A quoted text, which must be closed.
    fn text(self) -> Scanned
        ensures { result ≡ text_token self.entry.at.0 (drop self.entry.at.0 self.entry.line.now) }
    {
        let first = self.at.0 + 1;
        let close = run_end(self.line, Place(first), Run::Unquoted).0;
        if self.line.len() <= close || Place::FURTHEST < close {
            return unreadable(self.at);
        }
        let quotation = Quotation {
            at: first as u16,
            len: (close - first) as u16,
        };
        up_to(Token::Quoted(quotation), Place(close + 1))
    }

    // A comparison of two signs, or else a sign alone.
    fn sign(self) -> Scanned
        ensures { result ≡ sign_token self.entry.at.0 (drop self.entry.at.0 self.entry.line.now) }
    {
        let first = self.line[self.at.0];
        if let Some(token) = pair_of(first, byte_at(self.line, Place(self.at.0 + 1))) {
            return up_to(token, Place(self.at.0 + 2));
        }
        match sign_of(first) {
            Some(token) => up_to(token, Place(self.at.0 + 1)),
            None => unreadable(self.at),
        }
    }

    // What neither a letter, a digit, a quote nor a sign begins.
    fn other(self) -> Scanned
        ensures { result ≡ other_token (length self.entry.line.now) self.entry.at.0 (drop self.entry.at.0 self.entry.line.now) }
    {
        match self.line[self.at.0] {
            b'\'' => up_to(Token::EndOfLine, Place(self.line.len())),
            b'&' => self.hex(),
            _ => unreadable(self.at),
        }
    }
}

// The token at a place, blanks skipped, and the place after it.
pub fn token_at(line: &[u8], at: Place) -> Scanned
    ensures { result ≡ token_at line.now at }
{
    let at = run_end(line, at, Run::Blank);
    if line.len() <= at.0 {
        return up_to(Token::EndOfLine, Place(line.len()));
    }
    let start = Start { line, at };
    match class_of(line[at.0]) {
        ByteClass::Letter => start.word(),
        ByteClass::Digit => start.number(),
        ByteClass::Quote => start.text(),
        ByteClass::Sign => start.sign(),
        ByteClass::Other => start.other(),
        ByteClass::Blank => unreadable(at),
    }
}
