// The two-sided operators over values: the texts of both sides stand side by side in the space, the left one from `used` on.
ghost use Rattle.std.specs.Prelude.{◌≡◌, List, ℕ, ◌+◌, ◌≤◌, length, take, drop};
ghost use Rattle.variables.specs.Strings.{Room, whole, text};
ghost use Rattle.operators.specs.Values.{wants_whole, on_texts};
ghost use Rattle.operators.specs.bridge.Memory.{order_of, holds_in, takes_left, joined_length, turn_as, turn_before, RightMet, SidesMet};
ghost use Rattle.variables.specs.bridge.Memory.{text_length, Agrees, Held, GoesOn};

use grammar::tight_operator;
use space::Offset;
use std::cmp::Ordering;
use variables::{Worked, answered, has_room};
use whole::{Error, Operator, Text, apply, truth};
use words::{Place, Scanned};

// Strings compare by bytes, and a proper prefix is less. The right one stands right after the left one.
#[tactic(auto, using(crate::proofs::Orders::order_told))]
fn compare(space: &[u8], used: Offset, first: usize, second: usize) -> Ordering
    requires { used.0 + first + second ≤ length space.now }
    ensures { result ≡ order_of (take first (drop used.0 space.now)) (take second (drop (used.0 + first) space.now)) }
{
    let left = used.0;
    let right = left + first;
    space[left..right].cmp(&space[right..right + second])
}

// Whether a comparison holds of two texts in an order; no other operator does.
fn holds(operator: Operator, order: Ordering) -> bool
    ensures { result ≡ holds_in operator order }
{
    match operator {
        Operator::Equal => order.is_eq(),
        Operator::Unequal => order.is_ne(),
        Operator::Less => order.is_lt(),
        Operator::Greater => order.is_gt(),
        Operator::AtMost => order.is_le(),
        Operator::AtLeast => order.is_ge(),
        _ => false,
    }
}

// Whether an operator wants whole numbers: all but `+` and the comparisons.
fn wants_whole(operator: Operator) -> bool
    ensures { result ≡ wants_whole operator }
{
    !matches!(
        operator,
        Operator::Add
            | Operator::Equal
            | Operator::Unequal
            | Operator::Less
            | Operator::Greater
            | Operator::AtMost
            | Operator::AtLeast
    )
}

// Two texts side by side are already joined; only room is asked for, while both are live.
fn join(
    space: &[u8],
    used: Offset,
    first: usize,
    second: usize,
    ahead: Scanned,
) -> Result<Worked, Error>
    requires { used.0 + first + second ≤ length space.now }
    ensures { result ≡ joined_length (length space.now) used.0 first second ahead }
{
    let front = used.0;
    let len = first + second;
    if Text::LONGEST < len {
        return Err(Error::StringTooLong);
    }
    if !has_room(space, Offset(front + len), len) {
        return Err(Error::OutOfStringSpace);
    }
    Ok(Worked::Text(len, ahead))
}

// `+` joins two texts, and a comparison says how they compare; no other operator takes texts.
fn on_texts(
    operator: Operator,
    space: &[u8],
    used: Offset,
    first: usize,
    second: usize,
    ahead: Scanned,
) -> Result<Worked, Error>
    requires { used.0 + first + second ≤ length space.now }
    ensures { ((room : Room) → Held room space.now (used.0 + first + second)
        → Agrees result space.now used.0 (on_texts operator (take first (drop used.0 space.now)) (take second (drop (used.0 + first) space.now)) room))
        × GoesOn result ahead }
{
    if wants_whole(operator) {
        return Err(Error::TypeMismatch);
    }
    match operator {
        Operator::Add => join(space, used, first, second, ahead),
        _ => answered(
            truth(holds(operator, compare(space, used, first, second))),
            ahead,
        ),
    }
}

// Whether a left side is of a type that the operator takes.
pub(crate) fn takes_left(operator: Operator, left: Worked) -> bool
    ensures { result ≡ takes_left operator left }
{
    match left {
        Worked::Whole(_, _) => true,
        Worked::Text(_, _) => !wants_whole(operator),
    }
}

// What a left side meets: the end of its formula, or an operator that takes it, and the place after that; one that does not is an error.
// An error ends a formula, and so does whatever is no operator of its level or a tighter one.
pub fn turn_of(level: u8, left: Result<Worked, Error>) -> Result<Option<(Operator, Place)>, Error>
    ensures { result ≡ turn_as level left }
{
    let Ok(worked) = left else {
        return Ok(None);
    };
    match worked {
        Worked::Whole(_, ahead) | Worked::Text(_, ahead) => turn_before(level, worked, ahead),
    }
}

fn turn_before(level: u8, left: Worked, ahead: Scanned) -> Result<Option<(Operator, Place)>, Error>
    ensures { result ≡ turn_before level left ahead }
{
    let Some(operator) = tight_operator(level, ahead.token) else {
        return Ok(None);
    };
    if !takes_left(operator, left) {
        return Err(Error::TypeMismatch);
    }
    Ok(Some((operator, ahead.next)))
}

// A whole number on the left: the right side's answer, if it is an error, or what the operator makes of both.
fn beside_whole(operator: Operator, a: u16, right: Result<Worked, Error>) -> Result<Worked, Error>
    ensures { (space : List ℕ) (used : ℕ) → RightMet operator (whole a) used right space used result }
{
    let Worked::Whole(b, ahead) = right? else {
        return Err(Error::TypeMismatch);
    };
    answered(apply(operator, a, b), ahead)
}

// The same of a text on the left.
fn beside_text(
    operator: Operator,
    first: usize,
    right: Result<Worked, Error>,
    space: &[u8],
    used: Offset,
) -> Result<Worked, Error>
    requires { used.0 + first + text_length right ≤ length space.now }
    ensures { RightMet operator (text (take first (drop used.0 space.now))) (used.0 + first) right space.now used.0 result }
{
    let Worked::Text(second, ahead) = right? else {
        return Err(Error::TypeMismatch);
    };
    on_texts(operator, space, used, first, second, ahead)
}

// Both sides' answers: the first error stands, and the right value must be of the left one's type.
pub fn joined(
    operator: Operator,
    left: Result<Worked, Error>,
    right: Result<Worked, Error>,
    space: &[u8],
    used: Offset,
) -> Result<Worked, Error>
    requires { used.0 + text_length left + text_length right ≤ length space.now }
    ensures { SidesMet operator left right space.now used.0 result }
{
    match left? {
        Worked::Whole(a, _) => beside_whole(operator, a, right),
        Worked::Text(first, _) => beside_text(operator, first, right, space, used),
    }
}
