// One token of a formula that is skimmed.
ghost use Rattle.std.specs.Prelude.{◌≡◌};
ghost use Rattle.scanner.specs.Tokens.{token_at};
ghost use Rattle.skimming.specs.bridge.Steps.{want_step, call_step, has_step, end_step, step_of};

use crate::marks::{NOTHING, PLAIN, function_mark};
use grammar::{
    LOOSEST, NOT_LEVEL, TIGHTEST, is_symbol, minus_stands, not_stands, right_level, tight_operator,
};
use scanner::token_at;
use words::{Function, Place, Scanned, Sign, Token};

// Where a formula stands: an operand is wanted, at a level, or was read.
#[derive(Clone, Copy)]
pub enum Phase {
    Wants(u8),
    Has,
}

// What a token does.
#[derive(Clone, Copy)]
pub enum Step {
    // it cannot stand here
    Refused,
    // it follows the formula
    Ends,
    // the next token begins an operand
    Wants { ahead: Scanned, level: u8 },
    // the next token follows an operand
    Has { ahead: Scanned },
    // a parenthesis opened
    Opens { ahead: Scanned, mark: u8 },
    // the one opened last goes on with another argument
    Renews { ahead: Scanned, mark: u8 },
    // the one opened last closed
    Closes { ahead: Scanned },
}

fn leaf(line: &[u8], next: Place) -> Step
    ensures { result ≡ Step.Has (token_at line.now next) }
{
    Step::Has {
        ahead: token_at(line, next),
    }
}

// A function's opening parenthesis.
fn call_step(line: &[u8], first: Scanned, function: Function) -> Step
    ensures { result ≡ call_step line.now function first }
{
    if !is_symbol(Sign::Open, first.token) {
        return Step::Refused;
    }
    Step::Opens {
        ahead: token_at(line, first.next),
        mark: function_mark(function),
    }
}

// An operand is wanted at a level.
fn want_step(line: &[u8], token: Token, next: Place, level: u8) -> Step
    ensures { result ≡ want_step line.now level token next }
{
    match token {
        Token::Number(_) | Token::Hexadecimal(_) | Token::Named(_) | Token::Quoted(_) => {
            leaf(line, next)
        }
        Token::Symbol(Sign::Open) => Step::Opens {
            ahead: token_at(line, next),
            mark: PLAIN,
        },
        Token::Symbol(Sign::Minus) if minus_stands(level) => Step::Wants {
            ahead: token_at(line, next),
            level: TIGHTEST,
        },
        Token::Not if not_stands(level) => Step::Wants {
            ahead: token_at(line, next),
            level: NOT_LEVEL,
        },
        Token::Call(function) => call_step(line, token_at(line, next), function),
        _ => Step::Refused,
    }
}

// No operator follows an operand.
fn end_step(line: &[u8], token: Token, next: Place, mark: u8) -> Step
    ensures { result ≡ end_step line.now mark token next }
{
    if mark == NOTHING {
        return Step::Ends;
    }
    if is_symbol(Sign::Comma, token) {
        let left = mark / 2;
        if left == NOTHING {
            return Step::Refused;
        }
        return Step::Renews {
            ahead: token_at(line, next),
            mark: left,
        };
    }
    if is_symbol(Sign::Close, token) && mark % 2 == 1 {
        return Step::Closes {
            ahead: token_at(line, next),
        };
    }
    Step::Refused
}

// What follows an operand.
fn has_step(line: &[u8], token: Token, next: Place, mark: u8) -> Step
    ensures { result ≡ has_step line.now mark token next }
{
    match tight_operator(LOOSEST, token) {
        Some(operator) => Step::Wants {
            ahead: token_at(line, next),
            level: right_level(operator),
        },
        None => end_step(line, token, next, mark),
    }
}

pub fn next_step(line: &[u8], here: Scanned, phase: Phase, mark: u8) -> Step
    ensures { result ≡ step_of line.now phase mark here }
{
    let token = here.token;
    let next = here.next;
    match phase {
        Phase::Wants(level) => want_step(line, token, next, level),
        Phase::Has => has_step(line, token, next, mark),
    }
}
