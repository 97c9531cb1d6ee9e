// The arguments of a function, and what a function that gives a text makes of them.
#![tactic(auto)]

mod arguments;
mod making;

pub use arguments::{
    Argument, Given, are_three, first_length, first_word, given_length, in_range, second_length,
    third_length,
};
pub use making::text_called;
