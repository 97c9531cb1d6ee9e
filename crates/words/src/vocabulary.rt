// The reserved words. A word's letters are looked up as one number: the first letter in the lowest byte, and a 1 above the last.
ghost use Rattle.std.specs.Prelude.{◌≡◌, map, ◌≤◌, length};
ghost use Rattle.words.specs.Classes.{capital_of};
ghost use Rattle.words.specs.Vocabulary.{formula_words, function_words, dollar_functions, word_of};
ghost use Rattle.words.specs.bridge.Packed.{packed, unpacked, unpacked_in};

use crate::classes::capital;
use crate::symbols::{Function, Token, Word};
use whole::Operator;

// What letters and digits spell: a reserved word, one that ends in `$`, REM, DATA, or no reserved word.
#[derive(Clone, Copy)]
pub enum WordFound {
    Plain(Token),
    Dollared(Token),
    Remark,
    Items,
    Free,
}

// The longest reserved word is RESTORE.
const LONGEST: usize = 7;

// The number of no letters. It ends up above the last letter, so that words of different lengths have different numbers.
const NO_LETTERS: u64 = 1;

// The number of a word, letter by letter, as `pack` makes it.
macro_rules! spelt {
    () => { NO_LETTERS };
    ($first:literal $($rest:literal)*) => { spelt!($($rest)*) * 256 + $first as u64 };
}

const LET: u64 = spelt!(b'L' b'E' b'T');

const PRINT: u64 = spelt!(b'P' b'R' b'I' b'N' b'T');

const IF: u64 = spelt!(b'I' b'F');

const THEN: u64 = spelt!(b'T' b'H' b'E' b'N');

const ELSE: u64 = spelt!(b'E' b'L' b'S' b'E');

const GOTO: u64 = spelt!(b'G' b'O' b'T' b'O');

const GOSUB: u64 = spelt!(b'G' b'O' b'S' b'U' b'B');

const RETURN: u64 = spelt!(b'R' b'E' b'T' b'U' b'R' b'N');

const FOR: u64 = spelt!(b'F' b'O' b'R');

const TO: u64 = spelt!(b'T' b'O');

const STEP: u64 = spelt!(b'S' b'T' b'E' b'P');

const NEXT: u64 = spelt!(b'N' b'E' b'X' b'T');

const LINE: u64 = spelt!(b'L' b'I' b'N' b'E');

const INPUT: u64 = spelt!(b'I' b'N' b'P' b'U' b'T');

const END: u64 = spelt!(b'E' b'N' b'D');

const STOP: u64 = spelt!(b'S' b'T' b'O' b'P');

const REM: u64 = spelt!(b'R' b'E' b'M');

const MOD: u64 = spelt!(b'M' b'O' b'D');

const NOT: u64 = spelt!(b'N' b'O' b'T');

const AND: u64 = spelt!(b'A' b'N' b'D');

const OR: u64 = spelt!(b'O' b'R');

const XOR: u64 = spelt!(b'X' b'O' b'R');

const EQV: u64 = spelt!(b'E' b'Q' b'V');

const IMP: u64 = spelt!(b'I' b'M' b'P');

const LEN: u64 = spelt!(b'L' b'E' b'N');

const ASC: u64 = spelt!(b'A' b'S' b'C');

const CHR: u64 = spelt!(b'C' b'H' b'R');

const LEFT: u64 = spelt!(b'L' b'E' b'F' b'T');

const RIGHT: u64 = spelt!(b'R' b'I' b'G' b'H' b'T');

const MID: u64 = spelt!(b'M' b'I' b'D');

const SPACE: u64 = spelt!(b'S' b'P' b'A' b'C' b'E');

const STRING: u64 = spelt!(b'S' b'T' b'R' b'I' b'N' b'G');

const INSTR: u64 = spelt!(b'I' b'N' b'S' b'T' b'R');

const STR: u64 = spelt!(b'S' b'T' b'R');

const HEX: u64 = spelt!(b'H' b'E' b'X');

const VAL: u64 = spelt!(b'V' b'A' b'L');

const ABS: u64 = spelt!(b'A' b'B' b'S');

const SGN: u64 = spelt!(b'S' b'G' b'N');

const FRE: u64 = spelt!(b'F' b'R' b'E');

const WHILE: u64 = spelt!(b'W' b'H' b'I' b'L' b'E');

const WEND: u64 = spelt!(b'W' b'E' b'N' b'D');

const DATA: u64 = spelt!(b'D' b'A' b'T' b'A');

const READ: u64 = spelt!(b'R' b'E' b'A' b'D');

const RESTORE: u64 = spelt!(b'R' b'E' b'S' b'T' b'O' b'R' b'E');

// The letters of a word, folded to capitals, as one number.
fn pack(letters: &[u8]) -> u64
    requires { length letters.now ≤ 7 }
    ensures { result ≡ packed (map capital_of letters.now) }
{
    let mut number = NO_LETTERS;
    for letter in letters.iter().rev() {
        number = number * 256 + u64::from(capital(*letter));
    }
    number
}

// The reserved word that is packed so: a statement's, or else a formula's. A function for each kind keeps the proofs small.
#[tactic(auto, unfolding(whole::specs::Bytes::bytes, crate::specs::bridge::Packed::packed, crate::specs::bridge::Packed::unpacked_in, crate::specs::Vocabulary::reserved))]
fn unpack(number: u64) -> WordFound
    ensures { result ≡ unpacked number }
{
    let word = match number {
        LET => Word::Let,
        PRINT => Word::Print,
        IF => Word::If,
        THEN => Word::Then,
        ELSE => Word::Else,
        GOTO => Word::Goto,
        GOSUB => Word::Gosub,
        RETURN => Word::Return,
        FOR => Word::For,
        TO => Word::To,
        STEP => Word::Step,
        NEXT => Word::Next,
        LINE => Word::Line,
        INPUT => Word::Input,
        END => Word::End,
        STOP => Word::Stop,
        REM => return WordFound::Remark,
        WHILE => Word::While,
        WEND => Word::Wend,
        DATA => return WordFound::Items,
        READ => Word::Read,
        RESTORE => Word::Restore,
        _ => return formula_word(number),
    };
    WordFound::Plain(Token::Keyword(word))
}

// The word of a formula that is packed so: an operator, or else a function.
#[tactic(auto, unfolding(whole::specs::Bytes::bytes, crate::specs::bridge::Packed::packed, crate::specs::bridge::Packed::unpacked_in))]
fn formula_word(number: u64) -> WordFound
    ensures { result ≡ unpacked_in formula_words number }
{
    let operator = match number {
        MOD => Operator::Modulo,
        NOT => return WordFound::Plain(Token::Not),
        AND => Operator::And,
        OR => Operator::Or,
        XOR => Operator::Xor,
        EQV => Operator::Eqv,
        IMP => Operator::Imp,
        _ => return function_word(number),
    };
    WordFound::Plain(Token::Infix(operator))
}

// The function that is packed so: one without a `$`, or else one with it.
#[tactic(auto, unfolding(whole::specs::Bytes::bytes, crate::specs::bridge::Packed::packed, crate::specs::bridge::Packed::unpacked_in))]
fn function_word(number: u64) -> WordFound
    ensures { result ≡ unpacked_in function_words number }
{
    let function = match number {
        LEN => Function::Len,
        ASC => Function::Asc,
        INSTR => Function::Instr,
        VAL => Function::Val,
        ABS => Function::Abs,
        SGN => Function::Sgn,
        FRE => Function::Fre,
        _ => return dollar_function(number),
    };
    WordFound::Plain(Token::Call(function))
}

// The function with a `$` that is packed so.
#[tactic(auto, unfolding(whole::specs::Bytes::bytes, crate::specs::bridge::Packed::packed, crate::specs::bridge::Packed::unpacked_in))]
fn dollar_function(number: u64) -> WordFound
    ensures { result ≡ unpacked_in dollar_functions number }
{
    let function = match number {
        CHR => Function::Chr,
        LEFT => Function::Left,
        RIGHT => Function::Right,
        MID => Function::Mid,
        SPACE => Function::Space,
        STRING => Function::String,
        STR => Function::Str,
        HEX => Function::Hex,
        _ => return WordFound::Free,
    };
    WordFound::Dollared(Token::Call(function))
}

// The reserved word that letters and digits spell, in capitals or not.
pub fn word_of(letters: &[u8]) -> WordFound
    ensures { result ≡ word_of letters.now }
{
    if LONGEST < letters.len() {
        return WordFound::Free;
    }
    unpack(pack(letters))
}
