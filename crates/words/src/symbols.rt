// What can stand in a line, as named cases.
use crate::names::Name;
use crate::places::{LineNumber, Place};
use whole::Operator;

// The words of statements.
#[derive(Clone, Copy, PartialEq, Eq)]
pub enum Word {
    Let,
    Print,
    If,
    Then,
    Else,
    Goto,
    Gosub,
    Return,
    For,
    To,
    Step,
    Next,
    Line,
    Input,
    End,
    Stop,
    Rem,
    While,
    Wend,
    Data,
    Read,
    Restore,
}

// The functions; one whose name ends in `$` is named without it.
#[derive(Clone, Copy, PartialEq, Eq)]
pub enum Function {
    Len,
    Asc,
    Chr,
    Left,
    Right,
    Mid,
    Space,
    String,
    Instr,
    Str,
    Hex,
    Val,
    Abs,
    Sgn,
    Fre,
}

// The signs that are no operators, and the two that are not operators only.
#[derive(Clone, Copy, PartialEq, Eq)]
pub enum Sign {
    Open,
    Close,
    Comma,
    Semicolon,
    Colon,
    Question,
    Equal,
    Minus,
}

// The bytes between two quotes.
#[derive(Clone, Copy)]
pub struct Quotation {
    pub at: u16,
    pub len: u16,
}

// Digits up to 32767 are a number and a line number, those above up to 65529 a line number only.
#[derive(Clone, Copy)]
pub enum Token {
    EndOfLine,
    Keyword(Word),
    Not,
    Infix(Operator),
    Call(Function),
    Named(Name),
    Number(u16),
    Hexadecimal(u16),
    LineOnly(LineNumber),
    Quoted(Quotation),
    Symbol(Sign),
    Unreadable,
}

impl Token {
    pub const LARGEST_NUMBER: u16 = 32767;
}

// A token and the place after it.
#[derive(Clone, Copy)]
pub struct Scanned {
    pub token: Token,
    pub next: Place,
}
