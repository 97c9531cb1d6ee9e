// The functions, each over the values of its arguments; here are those that give a number.
ghost use Rattle.std.specs.Prelude.{◌≡◌, ◌+◌, ◌≤◌, length, take, drop};
ghost use Rattle.whole.specs.Digits.{val_of};
ghost use Rattle.words.specs.declared.names.Kind.TheVariants as kind;
ghost use Rattle.words.specs.declared.symbols.Function.TheVariants.{Asc, Instr};
ghost use Rattle.grammar.specs.Functions.{gives};
ghost use Rattle.variables.specs.bridge.Memory.{Made};
ghost use Rattle.variables.specs.Strings.{longest_space};
ghost use Rattle.strings.specs.Functions.{starts_with, place_of, called};
ghost use Rattle.strings.specs.bridge.Memory.{given_length, values_in, Placed, replied_as};
ghost use Rattle.functions.specs.bridge.Memory.{NumberOf};

use grammar::gives;
use space::Offset;
use strings::{
    Given, are_three, first_length, first_word, in_range, second_length, text_called, third_length,
};
use variables::{Worked, answered};
use whole::{Error, absolute, sign, val};
use words::{Function, Kind, Scanned};

// Whether the text of `len` bytes at offset y stands at offset x too.
fn stands_at(space: &[u8], x: Offset, y: Offset, len: usize) -> bool
    requires { (x.0 + len ≤ length space.now) × (y.0 + len ≤ length space.now) }
    ensures { result ≡ starts_with (take len (drop y.0 space.now)) (drop x.0 space.now) }
{
    space[x.0..x.0 + len] == space[y.0..y.0 + len]
}

// The first place from `start` on where the second text, which stands right after the first, stands in it, counted from 1; or 0.
fn place_of(space: &[u8], from: Offset, start: u16, first: usize, second: usize) -> u16
    requires { (from.0 + first + second ≤ length space.now) × ((length space.now ≤ longest_space) × (1 ≤ start)) }
    ensures { result ≡ place_of start (take first (drop from.0 space.now)) (take second (drop (from.0 + first) space.now)) }
{
    let front = from.0;
    let begin = start as usize;
    if first < begin {
        return 0;
    }
    if second == 0 {
        return start;
    }
    let sought = front + first;
    for place in begin..=(first + 1).saturating_sub(second) {
        if stands_at(space, Offset(front + place - 1), Offset(sought), second) {
            return place as u16;
        }
    }
    0
}

// INSTR: of two arguments from the first place on, of three from the place that the first one says.
fn instr(space: &[u8], used: Offset, given: Given) -> Result<u16, Error>
    requires { Placed space.now used.0 given }
    ensures { NumberOf (called Instr) space.now used.0 given result }
{
    let front = used.0;
    let first = first_length(given);
    let second = second_length(given);
    if !are_three(given) {
        return Ok(place_of(space, used, 1, first, second));
    }
    let start = first_word(given);
    if !in_range(1, start) {
        return Err(Error::IllegalFunctionCall);
    }
    let third = third_length(given);
    Ok(place_of(space, Offset(front + first), start, second, third))
}

// ASC: the first byte's code.
fn asc(space: &[u8], used: Offset, given: Given) -> Result<u16, Error>
    requires { Placed space.now used.0 given }
    ensures { NumberOf (called Asc) space.now used.0 given result }
{
    let front = used.0;
    if first_length(given) == 0 {
        return Err(Error::IllegalFunctionCall);
    }
    Ok(space[front] as u16)
}

// VAL: the number that a text begins with.
fn val_of(space: &[u8], used: Offset, len: usize) -> Result<u16, Error>
    requires { used.0 + len ≤ length space.now }
    ensures { result ≡ val_of (take len (drop used.0 space.now)) }
{
    let front = used.0;
    let end = front + len;
    val(&space[front..end])
}

// A function that gives a number.
fn number_called(function: Function, space: &[u8], used: Offset, given: Given) -> Result<u16, Error>
    requires { Placed space.now used.0 given × (gives function ≡ kind.Whole) }
    ensures { NumberOf (called function) space.now used.0 given result }
{
    let live = used.0;
    let word = first_word(given);
    let len = first_length(given);
    match function {
        Function::Len => Ok(len as u16),
        Function::Asc => asc(space, used, given),
        Function::Instr => instr(space, used, given),
        Function::Val => val_of(space, used, len),
        Function::Abs => absolute(word),
        Function::Sgn => Ok(sign(word)),
        // What is left is FRE.
        _ => Ok((space.len() - live) as u16),
    }
}

// A text or its error, and the token that follows.
fn replied(reply: Result<usize, Error>, ahead: Scanned) -> Result<Worked, Error>
    ensures { result ≡ replied_as reply ahead }
{
    Ok(Worked::Text(reply?, ahead))
}

// A function whose arguments are all worked out.
pub fn called(
    function: Function,
    space: &mut [u8],
    used: Offset,
    given: Given,
    ahead: Scanned,
) -> Result<Worked, Error>
    requires { Placed space.old used.0 given }
    ensures { Made space.old used.0 (used.0 + given_length given)
        (called function (values_in given (drop used.0 space.old))) ahead result space.new }
{
    let kind = gives(function);
    match kind {
        Kind::Text => replied(text_called(function, space, used, given), ahead),
        Kind::Whole => answered(number_called(function, space, used, given), ahead),
    }
}
