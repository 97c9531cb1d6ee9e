// What the readers ask of tokens, the operators' levels, and what functions take and give.
#![tactic(auto)]

mod levels;
mod tests;
mod wanting;

pub use levels::{LOOSEST, NOT_LEVEL, TIGHTEST, level_of, minus_stands, not_stands, right_level};
pub use tests::{ends_line, ends_statement, is_keyword, is_symbol, line_of, tight_operator};
pub use wanting::{Want, Wanted, gives, wants};
