// What is said on standard error. What can't be written there is not said.
ghost use Rattle.std.specs.Prelude.{◌≤◌, length};

use crate::arguments::{LONGEST, argument};
use std::env::Env;
use std::io;
use std::io::{Cursor, Write};

// Room for the text of an error.
const ERROR_ROOM: usize = 256;

pub fn complain<W: Write>(err: &mut W, words: &[u8]) {
    let _ = err.write_all(words);
    let _ = err.write_all(b"\n");
}

// What is wrong, and with which argument.
pub fn complain_of<R: Env, W: Write>(rt: &R, err: &mut W, words: &[u8], place: usize) {
    let mut given = [0u8; LONGEST];
    let len = argument(rt, place, &mut given).unwrap_or(0);
    let _ = err.write_all(words);
    let _ = err.write_all(b": ");
    complain(err, &given[..len]);
}

// How many bytes of an error's text stand before its number.
fn words_len(text: &[u8]) -> usize
    ensures { result ≤ length text.now }
{
    let number: &[u8] = b" (os error ";
    text.windows(number.len())
        .position(|part| part == number)
        .unwrap_or(text.len())
}

// What failed, and why, in the system's words.
pub fn complain_of_error<W: Write>(err: &mut W, what: &[u8], error: &io::Error) {
    let mut text = Cursor::new([0u8; ERROR_ROOM]);
    let _ = write!(text, "{error}");
    let end = (text.position() as usize).min(ERROR_ROOM);
    let bytes = text.into_inner();
    let len = words_len(&bytes[..end]);
    let _ = err.write_all(what);
    let _ = err.write_all(b": ");
    complain(err, &bytes[..len]);
}
