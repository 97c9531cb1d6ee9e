// The arguments of a function: how many bytes of text each has, and its whole number.
ghost use Rattle.std.specs.Prelude.{◌≡◌, ◌≤◌};
ghost use Rattle.strings.specs.Functions.{within};
ghost use Rattle.strings.specs.bridge.Memory.{argument_length, argument_word, first_of, second_of, third_of, are_three, given_length};
ghost use Rattle.variables.specs.Strings.{longest_space};

// A whole number, or a text of so many bytes.
#[derive(Clone, Copy)]
pub enum Argument {
    Whole(u16),
    Text(usize),
}

// Those worked out so far, at most three; their texts stand side by side. A variant for each count: an array would have one beside it.
#[derive(Clone, Copy)]
pub enum Given {
    None,
    One(Argument),
    Two(Argument, Argument),
    Three(Argument, Argument, Argument),
}

// Every range of a function ends here.
const LARGEST: u16 = 255;

fn argument_length(argument: Argument) -> usize
    ensures { result ≡ argument_length argument }
{
    match argument {
        Argument::Whole(_) => 0,
        Argument::Text(len) => len,
    }
}

fn argument_word(argument: Argument) -> u16
    ensures { result ≡ argument_word argument }
{
    match argument {
        Argument::Whole(word) => word,
        Argument::Text(_) => 0,
    }
}

fn first_of(given: Given) -> Argument
    ensures { result ≡ first_of given }
{
    match given {
        Given::None => Argument::Whole(0),
        Given::One(a) | Given::Two(a, _) | Given::Three(a, _, _) => a,
    }
}

pub(crate) fn second_of(given: Given) -> Argument
    ensures { result ≡ second_of given }
{
    match given {
        Given::None | Given::One(_) => Argument::Whole(0),
        Given::Two(_, b) | Given::Three(_, b, _) => b,
    }
}

fn third_of(given: Given) -> Argument
    ensures { result ≡ third_of given }
{
    match given {
        Given::Three(_, _, c) => c,
        _ => Argument::Whole(0),
    }
}

pub fn are_three(given: Given) -> bool
    ensures { result ≡ are_three given }
{
    matches!(given, Given::Three(_, _, _))
}

// How many bytes of text the first argument has.
pub fn first_length(given: Given) -> usize
    ensures { result ≡ argument_length (first_of given) }
{
    argument_length(first_of(given))
}

pub fn second_length(given: Given) -> usize
    ensures { result ≡ argument_length (second_of given) }
{
    argument_length(second_of(given))
}

pub fn third_length(given: Given) -> usize
    ensures { result ≡ argument_length (third_of given) }
{
    argument_length(third_of(given))
}

// The bytes of all their texts.
pub fn given_length(given: Given) -> usize
    requires { given_length given ≤ longest_space }
    ensures { result ≡ given_length given }
{
    first_length(given) + second_length(given) + third_length(given)
}

// The first argument as a whole number; 0 where it is a text.
pub fn first_word(given: Given) -> u16
    ensures { result ≡ argument_word (first_of given) }
{
    argument_word(first_of(given))
}

// And the second.
pub(crate) fn second_word(given: Given) -> u16
    ensures { result ≡ argument_word (second_of given) }
{
    argument_word(second_of(given))
}

// And the third.
pub(crate) fn third_word(given: Given) -> u16
    ensures { result ≡ argument_word (third_of given) }
{
    argument_word(third_of(given))
}

// Whether a word is in a function's range.
pub fn in_range(low: u16, word: u16) -> bool
    ensures { result ≡ within low word }
{
    low <= word && word <= LARGEST
}
