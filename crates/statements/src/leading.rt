// How a statement is led.
ghost use Rattle.std.specs.Prelude.{◌≡◌, Some};
ghost use Rattle.scanner.specs.Tokens.{token_at};
ghost use Rattle.statements.specs.Statements.{led_by_word, led_by_sign, lead_of};

use scanner::token_at;
use words::{Place, Scanned, Sign, Token, Word};

// How a statement is led: by its word, given or understood, and the token from which on it then reads. ELSE leads an empty statement, and the token is what follows
// that; DATA's is its own word, since no token follows it.
#[derive(Clone, Copy)]
pub struct Lead {
    pub word: Word,
    pub ahead: Scanned,
}

// Before ELSE stands an empty statement; what follows DATA is no token.
fn led_by_word(line: &[u8], word: Word, ahead: Scanned) -> Lead
    ensures { Some result ≡ led_by_word line.now word ahead }
{
    let ahead = match word {
        Word::Else | Word::Data => ahead,
        _ => token_at(line, ahead.next),
    };
    Lead { word, ahead }
}

// Before a colon too; a question mark is PRINT.
fn led_by_sign(line: &[u8], sign: Sign, ahead: Scanned) -> Option<Lead>
    ensures { result ≡ led_by_sign line.now sign ahead }
{
    match sign {
        Sign::Colon => Some(Lead {
            word: Word::Else,
            ahead,
        }),
        Sign::Question => Some(Lead {
            word: Word::Print,
            ahead: token_at(line, ahead.next),
        }),
        _ => None,
    }
}

// The statement at a place, or nothing that begins one. LET may be left out, and GOTO before a line number that begins a part, as
// `first` says.
pub fn lead_at(line: &[u8], at: Place, first: bool) -> Option<Lead>
    ensures { result ≡ lead_of line.now first (token_at line.now at) }
{
    let ahead = token_at(line, at);
    let word = match ahead.token {
        Token::EndOfLine => Word::Else,
        Token::Keyword(word) => return Some(led_by_word(line, word, ahead)),
        Token::Named(_) => Word::Let,
        Token::Symbol(sign) => return led_by_sign(line, sign, ahead),
        Token::Number(_) | Token::LineOnly(_) if first => Word::Goto,
        _ => return None,
    };
    Some(Lead { word, ahead })
}
