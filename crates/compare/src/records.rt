// A record: a word, a tab, a line number without leading zeros, byte 10.
ghost use Rattle.std.specs.Prelude.{◌≡◌, ◌+◌, ◌≤◌, length};
ghost use Rattle.space.specs.Moves.{overlaid};
ghost use Rattle.whole.specs.Texts.{held};
ghost use Rattle.compare.specs.Records.{record_of};
ghost use Rattle.compare.specs.bridge.Turns.{begins, records_in};

use crate::merging::{Difference, Way};
use space::{Offset, copy_in};
use whole::{Text, decimal_text};

// Copies bytes in at an offset that has room for them; where the next ones go.
fn put(out: &mut [u8], at: usize, bytes: &[u8]) -> usize
    requires { at + length bytes.now ≤ length out.old }
    ensures value { result ≡ at + length bytes.now }
    ensures out_after { out.new ≡ overlaid out.old at bytes.now }
{
    copy_in(out, Offset(at), bytes);
    at + bytes.len()
}

// The word that begins a record, and its tab.
#[tactic(auto, unfolding(whole::specs::Bytes::bytes))]
fn word_of(way: Way) -> &'static [u8]
    ensures { result.now ≡ begins way }
{
    match way {
        Way::Gone => b"gone\t",
        Way::New => b"new\t",
        Way::Changed => b"changed\t",
    }
}

fn record_of(difference: Difference) -> Text
    ensures { result ≡ held (record_of difference) }
{
    let digits = decimal_text(difference.number.0);
    let mut bytes = [0u8; Text::LONGEST];
    let word = put(&mut bytes, 0, word_of(difference.way));
    let number = put(&mut bytes, word, &digits.bytes[..usize::from(digits.len)]);
    let len = put(&mut bytes, number, b"\n");
    Text {
        bytes,
        len: len as u8,
    }
}

// The record of what a turn says, or no bytes.
pub(crate) fn records_in(said: Option<Difference>) -> Text
    ensures { result ≡ held (records_in said) }
{
    match said {
        None => Text::empty(),
        Some(difference) => record_of(difference),
    }
}
