// How the arguments of a call fit its function, and the type that it gives.
ghost use Rattle.std.specs.Prelude.{◌≡◌, List, [], ◌∷◌, ◌++◌};
ghost use Rattle.expressions.specs.Types.{meets, call_gives};
ghost use Rattle.expressions.specs.bridge.Answers.{sorts_by, fit_of};

use crate::sorts::{Sort, of_kind};
use grammar::{Want, Wanted, gives, wants};
use words::Function;

// The types of the arguments that were read; more than three are as good as four.
#[derive(Clone, Copy)]
pub enum Sorts {
    Zero,
    One(Sort),
    Two(Sort, Sort),
    Three(Sort, Sort, Sort),
    Many,
}

// One argument more.
pub fn with_sort(sorts: Sorts, sort: Sort) -> Sorts
    ensures { (l : List Sort) → sorts ≡ sorts_by l → result ≡ sorts_by (l ++ (sort ∷ [])) }
{
    match sorts {
        Sorts::Zero => Sorts::One(sort),
        Sorts::One(a) => Sorts::Two(a, sort),
        Sorts::Two(a, b) => Sorts::Three(a, b, sort),
        Sorts::Three(_, _, _) => Sorts::Many,
        Sorts::Many => Sorts::Many,
    }
}

// Whether an argument is what is wanted.
fn meets(want: Want, sort: Sort) -> bool
    ensures { result ≡ meets want sort }
{
    match want {
        Want::Whole => sort == Sort::Whole,
        Want::Text => sort == Sort::Text,
        Want::Either => sort != Sort::Wrong,
    }
}

// The type of a call whose arguments all meet what is wanted, or not.
fn call_sort(function: Function, fits: bool) -> Sort
    ensures { result ≡ call_gives function fits }
{
    if fits {
        of_kind(gives(function))
    } else {
        Sort::Wrong
    }
}

// A function with all its arguments.
pub fn call_fit(function: Function, sorts: Sorts) -> Option<Sort>
    ensures { (l : List Sort) → sorts ≡ sorts_by l → result ≡ fit_of function l }
{
    match sorts {
        Sorts::Zero => None,
        Sorts::One(a) => {
            let Wanted::One(v) = wants(function, 1) else {
                return None;
            };
            Some(call_sort(function, meets(v, a)))
        }
        Sorts::Two(a, b) => {
            let Wanted::Two(v, w) = wants(function, 2) else {
                return None;
            };
            Some(call_sort(function, meets(v, a) && meets(w, b)))
        }
        Sorts::Three(a, b, c) => {
            let Wanted::Three(v, w, x) = wants(function, 3) else {
                return None;
            };
            Some(call_sort(function, meets(v, a) && meets(w, b) && meets(x, c)))
        }
        Sorts::Many => None,
    }
}
