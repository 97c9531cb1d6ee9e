// A line built in a buffer by value, and bytes written to a writer.
ghost use Rattle.std.specs.Prelude.{◌≡◌, List, ℕ, ◌+◌, ◌*◌, ◌<◌, length, take};
ghost use Rattle.std.specs.Bool.{OnTrue};
ghost use Rattle.std.specs.Io.KnownBytes.{Appends};
ghost use Rattle.whole.specs.Texts.{longest_string, held, with_byte, with_bytes};
ghost use Rattle.console.specs.Lines.{field, line, refused_line};

use crate::complaints::complain_of_error;
use std::io::Write;
use whole::{Text, put_numeral};

const TAB: u8 = 9;

const LINE_FEED: u8 = 10;

// The text with bytes after it, as far as a text goes.
pub fn put_bytes(text: Text, bytes: &[u8]) -> Text
    ensures { result ≡ with_bytes text bytes.now }
{
    let mut longer = text;
    for byte in bytes {
        longer = longer.put(*byte);
    }
    longer
}

// The text with a tab and a number after it.
pub fn put_field(text: Text, value: u64) -> Text
    ensures { result ≡ with_bytes text (field value) }
{
    put_numeral(text.put(TAB), 10, value)
}

// The text with a line's end after it.
pub fn end_line(text: Text) -> Text
    ensures { result ≡ with_byte text 10 }
{
    text.put(LINE_FEED)
}

// A line: a word and numbers, parted by tabs. A text holds the whole of it where there are few.
pub fn line(word: &[u8], numbers: &[u64]) -> Text
    ensures { length word.now + 21 * length numbers.now < longest_string → result ≡ held (line word.now numbers.now) }
{
    let mut text = put_bytes(Text::empty(), word);
    for number in numbers {
        text = put_field(text, *number);
    }
    end_line(text)
}

// The line of a refusal: its number, and the place or the line of which it is said.
#[tactic(auto, unfolding(whole::specs::Bytes::bytes))]
pub fn refused_line(number: u8, standing: u64) -> Text
    ensures { result ≡ held (refused_line number standing) }
{
    line(b"refused", &[u64::from(number), standing])
}

// Writes bytes, or says on standard error why it can't; whether they were written.
pub fn write<W: Write, E: Write>(out: &mut W, err: &mut E, bytes: &[u8]) -> bool
    ensures { OnTrue result (Appends (W.contents out.old) (W.contents out.new) bytes.now) }
{
    match out.write_all(bytes) {
        Ok(()) => true,
        Err(error) => {
            complain_of_error(err, b"cannot write", &error);
            false
        }
    }
}

// Writes the bytes of a text, in the same way.
pub fn write_text<W: Write, E: Write>(out: &mut W, err: &mut E, text: Text) -> bool
    ensures bytes { OnTrue result (Appends (W.contents out.old) (W.contents out.new) (take text.len text.bytes)) }
    ensures said { (l : List ℕ) → text ≡ held l → OnTrue result (Appends (W.contents out.old) (W.contents out.new) l) }
{
    write(out, err, &text.bytes[..usize::from(text.len)])
}
