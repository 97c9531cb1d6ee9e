// The merge: of the next lines of both editions the one with the smaller number comes first. Each line is looked at once.
ghost use Rattle.std.specs.Prelude.{◌≡◌, None, Some};
ghost use Rattle.compare.specs.bridge.Turns.{first_heads, some_left, Lies, gone_turn, new_turn, both_turn, pair_turn, turn_of};

use crate::lines::same_line;
use loader::{LineSpan, line_at};
use std::cmp::Ordering;
use words::{LineNumber, Place};

// In what way a line differs.
#[derive(Clone, Copy)]
pub(crate) enum Way {
    Gone,
    New,
    Changed,
}

// A number that differs between two editions, and in what way.
#[derive(Clone, Copy)]
pub(crate) struct Difference {
    pub way: Way,
    pub number: LineNumber,
}

// The next line of each edition.
#[derive(Clone, Copy)]
pub(crate) struct Heads {
    pub old: Option<LineSpan>,
    pub new: Option<LineSpan>,
}

// What a turn says, and the next lines after it.
#[derive(Clone, Copy)]
pub(crate) struct Turn {
    pub said: Option<Difference>,
    pub heads: Heads,
}

// The first lines.
pub(crate) fn first_heads(old: &[u8], new: &[u8]) -> Heads
    ensures { result ≡ first_heads old.now new.now }
{
    Heads {
        old: line_at(old, Place(0)),
        new: line_at(new, Place(0)),
    }
}

// Whether an edition has a line left.
pub(crate) fn some_left(heads: Heads) -> bool
    ensures { result ≡ some_left heads }
{
    heads.old.is_some() || heads.new.is_some()
}

// An old line whose number the new edition does not have.
fn gone_turn(old: &[u8], line: LineSpan, other: Option<LineSpan>) -> Turn
    ensures { result ≡ gone_turn old.now line other }
{
    Turn {
        said: Some(Difference {
            way: Way::Gone,
            number: line.number,
        }),
        heads: Heads {
            old: line_at(old, line.next),
            new: other,
        },
    }
}

// A new line whose number the old edition does not have.
fn new_turn(new: &[u8], line: LineSpan, other: Option<LineSpan>) -> Turn
    ensures { result ≡ new_turn new.now line other }
{
    Turn {
        said: Some(Difference {
            way: Way::New,
            number: line.number,
        }),
        heads: Heads {
            old: other,
            new: line_at(new, line.next),
        },
    }
}

// Two lines with one number: nothing is said where they are equal.
fn both_turn(old: &[u8], first: LineSpan, new: &[u8], second: LineSpan) -> Turn
    requires { Lies old.now (Some first) × Lies new.now (Some second) }
    ensures { result ≡ both_turn old.now first new.now second }
{
    let heads = Heads {
        old: line_at(old, first.next),
        new: line_at(new, second.next),
    };
    if same_line(old, first, new, second) {
        return Turn { said: None, heads };
    }
    let said = Some(Difference {
        way: Way::Changed,
        number: first.number,
    });
    Turn { said, heads }
}

// A line of each edition: the smaller number comes first.
fn pair_turn(old: &[u8], first: LineSpan, new: &[u8], second: LineSpan) -> Turn
    requires { Lies old.now (Some first) × Lies new.now (Some second) }
    ensures { result ≡ pair_turn old.now first new.now second }
{
    match first.number.cmp(&second.number) {
        Ordering::Less => gone_turn(old, first, Some(second)),
        Ordering::Equal => both_turn(old, first, new, second),
        Ordering::Greater => new_turn(new, second, Some(first)),
    }
}

// One turn of the merge.
pub(crate) fn next_turn(old: &[u8], new: &[u8], heads: Heads) -> Turn
    requires { Lies old.now heads.old × Lies new.now heads.new }
    ensures { result ≡ turn_of old.now new.now heads.old heads.new }
{
    match (heads.old, heads.new) {
        (None, None) => Turn { said: None, heads },
        (None, Some(n)) => new_turn(new, n, None),
        (Some(o), None) => gone_turn(old, o, None),
        (Some(o), Some(n)) => pair_turn(old, o, new, n),
    }
}
