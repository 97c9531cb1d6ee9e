// The functions: how many arguments each takes, of which types, and the type it gives.
ghost use Rattle.std.specs.Prelude.{◌≡◌, [], ◌∷◌};
ghost use Rattle.grammar.specs.Functions.{gives};
ghost use Rattle.grammar.specs.bridge.Answers.{wanted_in, wanted_of};

use words::{Function, Kind};

// What is wanted of an argument.
#[derive(Clone, Copy)]
pub enum Want {
    Whole,
    Text,
    Either,
}

// What a function wants of so many arguments, if it takes as many.
#[derive(Clone, Copy)]
pub enum Wanted {
    NoForm,
    One(Want),
    Two(Want, Want),
    Three(Want, Want, Want),
}

// One argument is taken.
fn one(count: usize, want: Want) -> Wanted
    ensures { result ≡ wanted_in ((want ∷ []) ∷ []) count }
{
    if count == 1 {
        Wanted::One(want)
    } else {
        Wanted::NoForm
    }
}

// Two are.
fn two(count: usize, first: Want, second: Want) -> Wanted
    ensures { result ≡ wanted_in ((first ∷ second ∷ []) ∷ []) count }
{
    if count == 2 {
        Wanted::Two(first, second)
    } else {
        Wanted::NoForm
    }
}

// By the number of arguments.
pub fn wants(function: Function, count: usize) -> Wanted
    ensures { result ≡ wanted_of function count }
{
    match function {
        Function::Len | Function::Asc | Function::Val => one(count, Want::Text),
        Function::Chr
        | Function::Space
        | Function::Str
        | Function::Hex
        | Function::Abs
        | Function::Sgn => one(count, Want::Whole),
        Function::Fre => one(count, Want::Either),
        Function::Left | Function::Right => two(count, Want::Text, Want::Whole),
        Function::String => two(count, Want::Whole, Want::Either),
        Function::Mid => {
            if count == 3 {
                return Wanted::Three(Want::Text, Want::Whole, Want::Whole);
            }
            two(count, Want::Text, Want::Whole)
        }
        Function::Instr => {
            if count == 3 {
                return Wanted::Three(Want::Whole, Want::Text, Want::Text);
            }
            two(count, Want::Text, Want::Text)
        }
    }
}

// The type that a function gives.
pub fn gives(function: Function) -> Kind
    ensures { result ≡ gives function }
{
    match function {
        Function::Chr
        | Function::Left
        | Function::Right
        | Function::Mid
        | Function::Space
        | Function::String
        | Function::Str
        | Function::Hex => Kind::Text,
        _ => Kind::Whole,
    }
}
