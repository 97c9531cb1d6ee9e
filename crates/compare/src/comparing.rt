// Comparing two editions, in two passes: whether the whole answer has room, and then writing it.
ghost use Rattle.std.specs.Prelude.{◌≡◌, ◌≤◌, leb, length, Err, Ok};
ghost use Rattle.space.specs.Moves.{overlaid};
ghost use Rattle.loader.specs.Loading.{load_of};
ghost use Rattle.compare.specs.Records.{report_of};
ghost use Rattle.compare.specs.Comparing.{compared_of, out_after};

use crate::merging::{first_heads, next_turn, some_left};
use crate::records::records_in;
use loader::{Refusal, RefusedAt, load};
use space::{Offset, copy_in};
use words::Place;

// What is refused, and why: the old edition, the new one, or the room.
#[derive(Clone, Copy)]
pub enum Rejected {
    Old(RefusedAt),
    New(RefusedAt),
    Room(RefusedAt),
}

// Whether the answer has room in so many bytes.
fn report_fits(old: &[u8], new: &[u8], room: usize) -> bool
    requires { (load_of old.now ≡ Ok tt) × (load_of new.now ≡ Ok tt) }
    ensures { result ≡ leb (length (report_of old.now new.now)) room }
{
    let mut left = room;
    let mut heads = first_heads(old, new);
    while some_left(heads) {
        let turn = next_turn(old, new, heads);
        let len = usize::from(records_in(turn.said).len);
        if left < len {
            return false;
        }
        left -= len;
        heads = turn.heads;
    }
    true
}

// Writes the answer to the front of the room; how many bytes it has.
fn write_report(old: &[u8], new: &[u8], out: &mut [u8]) -> usize
    requires { (load_of old.now ≡ Ok tt) × (load_of new.now ≡ Ok tt) × (length (report_of old.now new.now) ≤ length out.old) }
    ensures value { result ≡ length (report_of old.now new.now) }
    ensures out_after { out.new ≡ overlaid out.old 0 (report_of old.now new.now) }
{
    let mut at = 0;
    let mut heads = first_heads(old, new);
    while some_left(heads) {
        let turn = next_turn(old, new, heads);
        let record = records_in(turn.said);
        let len = usize::from(record.len);
        copy_in(out, Offset(at), &record.bytes[..len]);
        at += len;
        heads = turn.heads;
    }
    at
}

// Compares two editions: how many bytes were written. What is refused writes nothing.
pub fn compare(old: &[u8], new: &[u8], out: &mut [u8]) -> Result<usize, Rejected>
    ensures value { result ≡ compared_of old.now new.now (length out.old) }
    ensures out_after { out.new ≡ out_after old.now new.now out.old }
{
    if let Err(refused) = load(old) {
        return Err(Rejected::Old(refused));
    }
    if let Err(refused) = load(new) {
        return Err(Rejected::New(refused));
    }
    if !report_fits(old, new, out.len()) {
        return Err(Rejected::Room(RefusedAt {
            refusal: Refusal::NoRoom,
            place: Place(0),
        }));
    }
    Ok(write_report(old, new, out))
}
