// Runs the stored cases. A case is a kind, six numbers of four bytes each, the low one first, and its recipe and input: how long the
// recipe and the input are, how many bytes of string space and of room for output are lent, the budget, and how many records are lent.
// Writes an answer a line.
#![tactic(auto)]

mod checks;
mod runs;
mod saying;

ghost use Rattle.std.specs.Prelude.{◌≡◌, ◌≤◌, length};

use runs::Lent;
use std::io;
use std::io::{Read, Stdin, Stdout};

const CHECK: u8 = 0;

// More bytes than any stored case asks for, all of them this one.
pub(crate) fn room(byte: u8) -> [u8; 20480]
    ensures { 20480 ≡ length result }
{
    [byte; 20480]
}

// The number at a place of a case's head.
fn number_at(head: &[u8; 25], at: usize) -> u32
    requires { at ≤ 21 }
{
    u32::from_le_bytes([head[at], head[at + 1], head[at + 2], head[at + 3]])
}

// The bytes of a case that stand next; none where there is no room for them.
fn take_in<'a>(cases: &mut Stdin, room: &'a mut [u8], len: u32) -> Option<&'a [u8]> {
    let bytes = room.get_mut(..len as usize)?;
    let _ = cases.read_exact(bytes);
    Some(bytes)
}

// Reads one case and writes its answer; an error where none is left.
fn next_case(cases: &mut Stdin, out: Stdout, text: &mut [u8], input: &mut [u8]) -> io::Result<()> {
    let mut head = [0u8; 25];
    cases.read_exact(&mut head)?;
    let text = take_in(cases, text, number_at(&head, 1));
    let input = take_in(cases, input, number_at(&head, 5));
    let lent = Lent {
        space: number_at(&head, 9) as usize,
        room: number_at(&head, 13) as usize,
        budget: number_at(&head, 17),
        records: number_at(&head, 21) as usize,
    };
    match (head[0], text, input) {
        (CHECK, Some(text), _) => checks::answer(out, text),
        (CHECK, None, _) => {}
        (_, Some(text), Some(input)) => runs::answer(out, text, input, lent),
        _ => {}
    }
    Ok(())
}

fn main(rt: HostRuntime) {
    let mut cases = rt.stdin();
    let out = rt.stdout();
    let mut text = room(0);
    let mut input = room(0);
    for _ in 0..60000 {
        if next_case(&mut cases, out, &mut text, &mut input).is_err() {
            return;
        }
    }
}
