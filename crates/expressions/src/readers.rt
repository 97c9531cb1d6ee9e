// The readers of formulas, operands and argument lists, which call each other in a cycle: at each call the bytes that remain are
// fewer. Each takes the token that it begins with and hands on the one that follows, so that no token is scanned twice.
ghost use Rattle.std.specs.Prelude.{◌≡◌, ℕ, ◌+◌, ◌<◌, Some};
ghost use Rattle.scanner.specs.Tokens.{token_at};
ghost use Rattle.grammar.specs.Trees.{Formula, Arguments, also};
ghost use Rattle.expressions.specs.Types.{depth_of};
ghost use Rattle.grammar.specs.Formulas.{formula_at, operand_at, formula_of};
ghost use Rattle.skimming.specs.bridge.Remaining.{weight};
ghost use Rattle.expressions.specs.declared.sorts.Sort.TheVariants.{Wrong};
ghost use Rattle.expressions.specs.bridge.Answers.{read_as, deeper, sort_in, depth_in, answer_in, answer_of, fronted, joined, closed_read, Kept, call_at, listed_at};

use crate::calls::{Sorts, call_fit, with_sort};
use crate::nots::past_nots;
use crate::sorts::{Sort, joined_sort, of_kind, whole_only};
use grammar::{
    LOOSEST, NOT_LEVEL, TIGHTEST, is_symbol, minus_stands, not_stands, right_level, tight_operator,
};
use scanner::token_at;
use skimming::skim;
use whole::Operator;
use words::{Function, Place, Scanned, Sign, Token};

// A formula that reads: the token that follows it, its type, and how deep its parentheses nest, where more than eight are nine and
// the type is wrong.
#[derive(Clone, Copy)]
pub struct FormulaRead {
    pub ahead: Scanned,
    pub sort: Sort,
    pub deepest: u8,
}

impl FormulaRead {
    pub const DEEPEST: u8 = 8;
}

// The arguments that were read.
#[derive(Clone, Copy)]
struct Taken {
    sorts: Sorts,
    deepest: u8,
}

impl Taken {
    // One argument more.
    fn with(self, argument: FormulaRead) -> Taken
        ensures { (room : ℕ) (a : Arguments) (f : Formula) → Kept room self.sorts self.deepest a → argument.sort ≡ sort_in room f
            → argument.deepest ≡ depth_in room (depth_of f) → Kept room result.sorts result.deepest (also a f) }
    {
        Taken {
            sorts: with_sort(self.sorts, argument.sort),
            deepest: self.deepest.max(argument.deepest),
        }
    }
}

// One pair of parentheses more.
fn deeper(depth: u8) -> u8
    ensures { result ≡ deeper depth }
{
    if depth <= FormulaRead::DEEPEST {
        depth + 1
    } else {
        depth
    }
}

// A name, a number or a text, which ends before a place.
fn leaf(line: &[u8], next: Place, sort: Sort) -> FormulaRead
    ensures { result ≡ read_as (token_at line.now next) sort 0 }
{
    FormulaRead {
        ahead: token_at(line, next),
        sort,
        deepest: 0,
    }
}

// What wants a whole number of the formula behind it: NOT and the minus sign.
fn fronted(read: FormulaRead) -> FormulaRead
    ensures { result ≡ fronted read }
{
    FormulaRead {
        sort: whole_only(read.sort),
        ..read
    }
}

// A left side joined to its right one.
fn joined(operator: Operator, left: FormulaRead, right: FormulaRead) -> FormulaRead
    ensures { result ≡ joined operator left.sort left.deepest right }
{
    FormulaRead {
        ahead: right.ahead,
        sort: joined_sort(operator, left.sort, right.sort),
        deepest: left.deepest.max(right.deepest),
    }
}

// The parenthesis that closes.
fn closed(line: &[u8], read: FormulaRead) -> Option<FormulaRead>
    ensures { result ≡ closed_read line.now (Some read) }
{
    let token = read.ahead.token;
    if !is_symbol(Sign::Close, token) {
        return None;
    }
    Some(FormulaRead {
        ahead: token_at(line, read.ahead.next),
        sort: read.sort,
        deepest: deeper(read.deepest),
    })
}

// A formula that nests too deep: only what follows it is told.
fn too_deep(ahead: Scanned) -> FormulaRead
    ensures { result ≡ read_as ahead Wrong 0 }
{
    FormulaRead {
        ahead,
        sort: Sort::Wrong,
        deepest: 0,
    }
}

// What stands inside parentheses, where so many pairs may nest, those included.
#[cycle(arguments_formula_inner_operand)]
fn inner(line: &[u8], ahead: Scanned, room: u8) -> Option<FormulaRead>
    ensures { (n : ℕ) → weight line.now ahead + 2 < n → result ≡ answer_in room (formula_at n line.now 0 ahead) }
{
    if room == 0 {
        Some(too_deep(skim(line, ahead)?))
    } else {
        formula(line, ahead, LOOSEST, room - 1)
    }
}

// A formula of a level: an operand, and as long as an operator of that level or a tighter one follows, that operator with a
// formula of the next tighter level on its right. So many pairs of parentheses may nest in it.
#[cycle(arguments_formula_inner_operand)]
fn formula(line: &[u8], ahead: Scanned, level: u8, room: u8) -> Option<FormulaRead>
    ensures { (n : ℕ) → weight line.now ahead + 2 < n
        → result ≡ answer_in (room + 1) (formula_at n line.now level ahead) }
{
    let mut left = operand(line, ahead, level, room)?;
    while let Some(operator) = tight_operator(level, left.ahead.token) {
        let first = token_at(line, left.ahead.next);
        let right = formula(line, first, right_level(operator), room)?;
        left = joined(operator, left, right);
    }
    Some(left)
}

// Parentheses, names, numbers, texts and functions, one minus sign before such, or NOT where the level lets it stand; a chain of
// NOT fronts as one of them does.
#[cycle(arguments_formula_inner_operand)]
fn operand(line: &[u8], ahead: Scanned, level: u8, room: u8) -> Option<FormulaRead>
    ensures { (n : ℕ) → weight line.now ahead + 1 < n
        → result ≡ answer_in (room + 1) (operand_at n line.now level ahead.token ahead.next) }
{
    let token = ahead.token;
    let next = ahead.next;
    match token {
        Token::Number(_) | Token::Hexadecimal(_) => Some(leaf(line, next, Sort::Whole)),
        Token::Named(name) => Some(leaf(line, next, of_kind(name.kind))),
        Token::Quoted(_) => Some(leaf(line, next, Sort::Text)),
        Token::Symbol(Sign::Open) => {
            let first = token_at(line, next);
            closed(line, inner(line, first, room)?)
        }
        Token::Symbol(Sign::Minus) if minus_stands(level) => {
            let first = token_at(line, next);
            Some(fronted(operand(line, first, TIGHTEST, room)?))
        }
        Token::Not if not_stands(level) => {
            let behind = past_nots(line, ahead).ahead;
            Some(fronted(formula(line, behind, NOT_LEVEL, room)?))
        }
        Token::Call(function) => {
            let first = token_at(line, next);
            arguments(line, first, function, room)
        }
        _ => None,
    }
}

// A function's arguments in parentheses, parted by commas.
#[cycle(arguments_formula_inner_operand)]
fn arguments(line: &[u8], ahead: Scanned, function: Function, room: u8) -> Option<FormulaRead>
    ensures { (n : ℕ) → weight line.now ahead + 2 < n → result ≡ answer_in (room + 1) (call_at n line.now function ahead) }
{
    let token = ahead.token;
    if !is_symbol(Sign::Open, token) {
        return None;
    }
    let mut taken = Taken {
        sorts: Sorts::Zero,
        deepest: 0,
    };
    let mut here = ahead;
    loop {
        let first = token_at(line, here.next);
        let argument = inner(line, first, room)?;
        taken = taken.with(argument);
        here = argument.ahead;
        let token = here.token;
        if !is_symbol(Sign::Comma, token) {
            return called(line, function, taken, here);
        }
    }
}

// The parenthesis that closes a function's arguments, if it takes as many.
fn called(line: &[u8], function: Function, taken: Taken, ahead: Scanned) -> Option<FormulaRead>
    ensures { (room : ℕ) (a : Arguments) → Kept room taken.sorts taken.deepest a
        → result ≡ answer_in (room + 1) (listed_at line.now function a ahead) }
{
    let token = ahead.token;
    if !is_symbol(Sign::Close, token) {
        return None;
    }
    let sort = call_fit(function, taken.sorts)?;
    Some(FormulaRead {
        ahead: token_at(line, ahead.next),
        sort,
        deepest: deeper(taken.deepest),
    })
}

// The formula that begins with a token of a line.
pub fn formula_at(line: &[u8], ahead: Scanned) -> Option<FormulaRead>
    ensures { result ≡ answer_of (formula_of line.now ahead) }
{
    formula(line, ahead, LOOSEST, FormulaRead::DEEPEST)
}
