// The functions that give a text, each over the values of its arguments: the text takes the place of theirs.
ghost use Rattle.std.specs.Prelude.{◌≡◌, cond, List, ℕ, ◌+◌, ◌≤◌, leb, length, take, drop, replicate};
ghost use Rattle.whole.specs.Texts.{held, longest_string};
ghost use Rattle.words.specs.declared.names.Kind.TheVariants as kind;
ghost use Rattle.words.specs.declared.symbols.Function.TheVariants.{Chr, Left, Right, Mid, String};
ghost use Rattle.grammar.specs.Functions.{gives};
ghost use Rattle.variables.specs.Strings.{produced};
ghost use Rattle.strings.specs.Functions.{bytes, within, ranged, called};
ghost use Rattle.strings.specs.bridge.Memory.{argument_word, third_of, are_three, given_length, Placed, TextOf};

use crate::arguments::{
    Argument, Given, are_three, first_length, first_word, given_length, in_range, second_of,
    second_word, third_word,
};
use space::{Offset, copy_in, move_bytes};
use variables::has_room;
use whole::{Error, Text, hex_text, str_text};
use words::Function;

// A result of so many bytes asks for room while the arguments, and what was live before them, are live.
fn grants(space: &[u8], used: Offset, given: Given, len: usize) -> bool
    requires { Placed space.now used.0 given }
    ensures { result ≡ leb (used.0 + given_length given + len) (length space.now) }
{
    let start = used.0;
    has_room(space, Offset(start + given_length(given)), len)
}

// A part of the first text, as far as it goes, moved down over it.
fn part(
    space: &mut [u8],
    used: Offset,
    given: Given,
    from: usize,
    most: usize,
) -> Result<usize, Error>
    requires { Placed space.old used.0 given × (most ≤ longest_string) }
    ensures { TextOf (λ vs. produced (take most (drop from (bytes vs 0))) vs) space.old used.0 given result space.new }
{
    let front = used.0;
    let all = first_length(given);
    let start = from.min(all);
    let len = most.min(all - start);
    if !grants(space, used, given, len) {
        return Err(Error::OutOfStringSpace);
    }
    move_bytes(space, Offset(front + start), used, len);
    Ok(len)
}

// A text built in a buffer, copied in where the arguments stood.
fn built(space: &mut [u8], used: Offset, given: Given, text: Text) -> Result<usize, Error>
    requires { Placed space.old used.0 given }
    ensures { (l : List ℕ) → text ≡ held l → TextOf (produced l) space.old used.0 given result space.new }
{
    let len = text.len as usize;
    if !grants(space, used, given, len) {
        return Err(Error::OutOfStringSpace);
    }
    let bytes = text.bytes;
    copy_in(space, used, &bytes[..len]);
    Ok(len)
}

// So many of one byte, in a buffer.
fn repeated(byte: u8, count: u16) -> Text
    requires { count ≤ longest_string }
    ensures { result ≡ held (replicate count byte) }
{
    let mut bytes = [0; Text::LONGEST];
    bytes[..count as usize].fill(byte);
    Text {
        bytes,
        len: count as u8,
    }
}

// SPACE$, and what CHR$ and STRING$ come to: so many of one byte.
fn filled(
    space: &mut [u8],
    used: Offset,
    given: Given,
    count: u16,
    byte: u8,
) -> Result<usize, Error>
    requires { Placed space.old used.0 given }
    ensures { TextOf (λ vs room. ranged (within 0 count) room (produced (replicate count byte) vs room)) space.old used.0 given result
        space.new }
{
    if !in_range(0, count) {
        return Err(Error::IllegalFunctionCall);
    }
    built(space, used, given, repeated(byte, count))
}

// CHR$: the byte of a code.
fn chr(space: &mut [u8], used: Offset, given: Given) -> Result<usize, Error>
    requires { Placed space.old used.0 given }
    ensures { TextOf (called Chr) space.old used.0 given result space.new }
{
    let code = first_word(given);
    if !in_range(0, code) {
        return Err(Error::IllegalFunctionCall);
    }
    filled(space, used, given, 1, code as u8)
}

// STRING$: so many of a code, or of a text's first byte.
fn string(space: &mut [u8], used: Offset, given: Given) -> Result<usize, Error>
    requires { Placed space.old used.0 given }
    ensures { TextOf (called String) space.old used.0 given result space.new }
{
    let front = used.0;
    let count = first_word(given);
    let second = second_of(given);
    match second {
        Argument::Whole(code) => {
            if !in_range(0, code) {
                return Err(Error::IllegalFunctionCall);
            }
            filled(space, used, given, count, code as u8)
        }
        Argument::Text(len) => {
            if len == 0 {
                return Err(Error::IllegalFunctionCall);
            }
            let byte = space[front + first_length(given)];
            filled(space, used, given, count, byte)
        }
    }
}

// LEFT$: so many bytes at the front.
fn left(space: &mut [u8], used: Offset, given: Given) -> Result<usize, Error>
    requires { Placed space.old used.0 given }
    ensures { TextOf (called Left) space.old used.0 given result space.new }
{
    let n = second_word(given);
    if !in_range(0, n) {
        return Err(Error::IllegalFunctionCall);
    }
    part(space, used, given, 0, n as usize)
}

// RIGHT$: so many bytes at the end.
fn right(space: &mut [u8], used: Offset, given: Given) -> Result<usize, Error>
    requires { Placed space.old used.0 given }
    ensures { TextOf (called Right) space.old used.0 given result space.new }
{
    let n = second_word(given);
    if !in_range(0, n) {
        return Err(Error::IllegalFunctionCall);
    }
    let len = first_length(given);
    let most = n as usize;
    let kept = most.min(len);
    part(space, used, given, len - kept, most)
}

// How many bytes MID$ takes at most: its third argument, or all.
fn mid_length(given: Given) -> u16
    ensures { result ≡ cond (are_three given) (argument_word (third_of given)) longest_string }
{
    if are_three(given) {
        third_word(given)
    } else {
        Text::LONGEST as u16
    }
}

// MID$: the bytes from a place on, counted from 1.
fn mid(space: &mut [u8], used: Offset, given: Given) -> Result<usize, Error>
    requires { Placed space.old used.0 given }
    ensures { TextOf (called Mid) space.old used.0 given result space.new }
{
    let n = second_word(given);
    if !in_range(1, n) {
        return Err(Error::IllegalFunctionCall);
    }
    let most = mid_length(given);
    if !in_range(0, most) {
        return Err(Error::IllegalFunctionCall);
    }
    part(space, used, given, n as usize - 1, most as usize)
}

// A function that gives a text, when its arguments are all worked out: an arm for each clause of `called`.
pub fn text_called(
    function: Function,
    space: &mut [u8],
    used: Offset,
    given: Given,
) -> Result<usize, Error>
    requires { Placed space.old used.0 given × (gives function ≡ kind.Text) }
    ensures { TextOf (called function) space.old used.0 given result space.new }
{
    let word = first_word(given);
    match function {
        Function::Chr => chr(space, used, given),
        Function::Left => left(space, used, given),
        Function::Right => right(space, used, given),
        Function::Mid => mid(space, used, given),
        Function::Space => filled(space, used, given, word, b' '),
        Function::String => string(space, used, given),
        Function::Str => built(space, used, given, str_text(word)),
        // What is left is HEX$.
        _ => built(space, used, given, hex_text(word)),
    }
}
