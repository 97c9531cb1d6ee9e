// One item of a DATA statement, at a place of a line.
ghost use Rattle.std.specs.Prelude.{◌≡◌, ◌<◌, length};
ghost use Rattle.items.specs.Items.{read, ended, cut, quoted_item, bare_item, item_at};

use scanner::{Run, run_end};
use words::{Place, byte_at};

// Where the bytes of an item stand, the place of what ends it, and whether that is a comma: then another item follows.
#[derive(Clone, Copy)]
pub struct Item {
    pub from: Place,
    pub len: usize,
    pub end: Place,
    pub more: bool,
}

fn read(from: Place, len: usize, end: Place, more: bool) -> Option<Item>
    ensures { result ≡ read from.0 len end.0 more }
{
    Some(Item {
        from,
        len,
        end,
        more,
    })
}

// After an item stands a comma, a colon, an apostrophe or the line's end.
fn ended(line: &[u8], from: Place, len: usize, end: Place) -> Option<Item>
    ensures { result ≡ ended line.now from.0 len end.0 }
{
    if line.len() <= end.0 {
        return read(from, len, end, false);
    }
    match line[end.0] {
        b',' => read(from, len, end, true),
        b':' | b'\'' => read(from, len, end, false),
        _ => None,
    }
}

// How long bytes are without the blanks at their end.
fn cut_length(bytes: &[u8]) -> usize
    ensures { result ≡ length (cut bytes.now) }
{
    let blanks = bytes.iter().rev().take_while(|byte| **byte == b' ').count();
    bytes.len() - blanks
}

// A quoted item runs to the next quote, which must stand; only blanks may follow before its end.
fn quoted_at(line: &[u8], at: Place) -> Option<Item>
    requires { at.0 < length line.now }
    ensures { result ≡ quoted_item line.now at.0 }
{
    let first = at.0 + 1;
    let close = run_end(line, Place(first), Run::Unquoted).0;
    if line.len() <= close {
        return None;
    }
    let end = run_end(line, Place(close + 1), Run::Blank);
    ended(line, Place(first), close - first, end)
}

// A bare item runs to its end, the blanks before that cut; no quote stands in it.
fn bare_at(line: &[u8], at: Place) -> Option<Item>
    ensures { result ≡ bare_item line.now at.0 }
{
    if line.len() <= at.0 {
        return ended(line, at, 0, at);
    }
    let end = run_end(line, at, Run::Item);
    let len = cut_length(&line[at.0..end.0]);
    ended(line, at, len, end)
}

// The item at a place, blanks skipped.
pub fn item_at(line: &[u8], at: Place) -> Option<Item>
    ensures { result ≡ item_at line.now at.0 }
{
    let start = run_end(line, at, Run::Blank);
    if byte_at(line, start) == b'"' {
        return quoted_at(line, start);
    }
    bare_at(line, start)
}
