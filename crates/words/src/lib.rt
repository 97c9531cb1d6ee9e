// What can stand in a line: the classes of bytes, the signs, the reserved words, names, and the kinds of tokens.
#![tactic(auto)]

mod classes;
mod names;
mod places;
mod symbols;
mod table;
mod vocabulary;

pub use classes::{ByteClass, byte_at, capital, class_of, is_letter, sign_of};
pub use names::{Kind, Name, Telling, character, is_told, telling_of};
pub use places::{LineNumber, Place};
pub use symbols::{Function, Quotation, Scanned, Sign, Token, Word};
pub use vocabulary::{WordFound, word_of};
