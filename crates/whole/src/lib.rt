// Whole numbers from -32768 to 32767, held as 16-bit two's-complement words: what the operators answer,
// how a number is written, and how digits are read.
#![tactic(auto)]

mod arithmetic;
mod digits;
mod errors;
mod texts;

pub use arithmetic::{Operator, absolute, apply, complement, negative, sign, truth};
pub use digits::{Digits, is_digit, leading_blanks, leading_digits, number_item, val};
pub use errors::{Error, number_of};
pub use texts::{Text, decimal_text, hex_digit, hex_text, print_text, put_numeral, str_text};
