// Tests of a token.
ghost use Rattle.std.specs.Prelude.{◌≡◌};
ghost use Rattle.grammar.specs.Tests.{is_symbol, is_keyword, ends_statement, ends_line};
ghost use Rattle.grammar.specs.Formulas.{sign_operator, operator_of, tight_operator};
ghost use Rattle.grammar.specs.bridge.Answers.{line_of};

use crate::levels::level_of;
use whole::Operator;
use words::{LineNumber, Sign, Token, Word};

pub fn is_symbol(sign: Sign, token: Token) -> bool
    ensures { result ≡ is_symbol sign token }
{
    matches!(token, Token::Symbol(found) if found == sign)
}

pub fn is_keyword(word: Word, token: Token) -> bool
    ensures { result ≡ is_keyword word token }
{
    matches!(token, Token::Keyword(found) if found == word)
}

pub fn ends_line(token: Token) -> bool
    ensures { result ≡ ends_line token }
{
    matches!(token, Token::EndOfLine)
}

// A colon, ELSE or the line's end.
pub fn ends_statement(token: Token) -> bool
    ensures { result ≡ ends_statement token }
{
    ends_line(token) || is_keyword(Word::Else, token) || is_symbol(Sign::Colon, token)
}

// A line number in a statement is digits, up to 65529.
pub fn line_of(token: Token) -> Option<LineNumber>
    ensures { result ≡ line_of token }
{
    match token {
        Token::Number(number) => Some(LineNumber(number)),
        Token::LineOnly(number) => Some(number),
        _ => None,
    }
}

fn sign_operator(sign: Sign) -> Option<Operator>
    ensures { result ≡ sign_operator sign }
{
    match sign {
        Sign::Equal => Some(Operator::Equal),
        Sign::Minus => Some(Operator::Subtract),
        _ => None,
    }
}

fn operator_of(token: Token) -> Option<Operator>
    ensures { result ≡ operator_of token }
{
    match token {
        Token::Infix(operator) => Some(operator),
        Token::Symbol(sign) => sign_operator(sign),
        _ => None,
    }
}

// The two-sided operator that a token is, where it is of the level or a tighter one.
pub fn tight_operator(level: u8, token: Token) -> Option<Operator>
    ensures { result ≡ tight_operator level token }
{
    let operator = operator_of(token)?;
    if level_of(operator) < level {
        return None;
    }
    Some(operator)
}
