// The type of a formula, and what operators make of types.
ghost use Rattle.std.specs.Prelude.{◌≡◌};
ghost use Rattle.expressions.specs.Types.{of_kind, whole_only, common_sort, compared, joined_sort};
ghost use Rattle.expressions.specs.Types.{is_whole, is_some, is_of};

use whole::Operator;
use words::Kind;

// A whole number, a text, or a formula in which some type is wrong.
#[derive(Clone, Copy, PartialEq, Eq)]
pub enum Sort {
    Whole,
    Text,
    Wrong,
}

pub fn of_kind(kind: Kind) -> Sort
    ensures { result ≡ of_kind kind }
{
    match kind {
        Kind::Whole => Sort::Whole,
        Kind::Text => Sort::Text,
    }
}

// What wants a whole number.
pub fn whole_only(sort: Sort) -> Sort
    ensures { result ≡ whole_only sort }
{
    match sort {
        Sort::Whole => Sort::Whole,
        _ => Sort::Wrong,
    }
}

// Both sides of one type, which is given.
fn common_sort(left: Sort, right: Sort) -> Sort
    ensures { result ≡ common_sort left right }
{
    if left == right { left } else { Sort::Wrong }
}

// Both sides of one type; a whole number is given.
fn compared(sort: Sort) -> Sort
    ensures { result ≡ compared sort }
{
    match sort {
        Sort::Wrong => Sort::Wrong,
        _ => Sort::Whole,
    }
}

// `+` and comparisons want both sides of one type, the others whole numbers.
pub fn joined_sort(operator: Operator, left: Sort, right: Sort) -> Sort
    ensures { result ≡ joined_sort operator left right }
{
    let both = common_sort(left, right);
    match operator {
        Operator::Add => both,
        Operator::Equal
        | Operator::Unequal
        | Operator::Less
        | Operator::Greater
        | Operator::AtMost
        | Operator::AtLeast => compared(both),
        _ => whole_only(both),
    }
}

pub fn is_whole(sort: Sort) -> bool
    ensures { result ≡ is_whole sort }
{
    matches!(sort, Sort::Whole)
}

// A formula in which no type is wrong.
pub fn is_some(sort: Sort) -> bool
    ensures { result ≡ is_some sort }
{
    !matches!(sort, Sort::Wrong)
}

// Whether a formula is of a variable's kind.
pub fn is_of(kind: Kind, sort: Sort) -> bool
    ensures { result ≡ is_of kind sort }
{
    match kind {
        Kind::Whole => is_whole(sort),
        Kind::Text => matches!(sort, Sort::Text),
    }
}
