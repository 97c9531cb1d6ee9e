// How an answer is written.
use std::io::{Print, Stdout};

// Fields are parted by blanks. What can't be written is not said.
pub(crate) fn number(out: Stdout, value: u64) {
    let _ = print!(out; "{value} ");
}

pub(crate) fn word(out: Stdout, word: &[u8]) {
    let _ = out.write_all(word);
    let _ = out.write_all(b" ");
}

pub(crate) fn line_end(out: Stdout) {
    let _ = out.write_all(b"\n");
}

// So many at the front, each by its number.
pub(crate) fn each<T: Copy + Into<u64>>(out: Stdout, items: &[T], count: usize) {
    for item in items.iter().take(count) {
        number(out, (*item).into());
    }
}

// How many bytes there are at the front, and each by its number.
pub(crate) fn front(out: Stdout, bytes: &[u8], count: usize) {
    number(out, count as u64);
    each(out, bytes, count);
}

// How many from a place on are others than this one.
pub(crate) fn others<T: Copy + PartialEq>(out: Stdout, items: &[T], from: usize, usual: T) {
    let count = items
        .iter()
        .skip(from)
        .filter(|item| **item != usual)
        .count();
    number(out, count as u64);
}
