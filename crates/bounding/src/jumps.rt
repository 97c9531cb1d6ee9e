// Whether a statement leads a run only to what stands after it.
ghost use Rattle.std.specs.Prelude.{◌≡◌};
ghost use Rattle.bounding.specs.bridge.Leading.{goes_on, word_leads_on, leads_on};

use grammar::line_of;
use statements::Lead;
use words::{LineNumber, Scanned, Word};

// A named jump goes to a higher line number than its own.
fn goes_on(own: LineNumber, names: Option<LineNumber>) -> bool
    ensures { result ≡ goes_on own.0 names }
{
    match names {
        None => true,
        Some(line) => own.0 < line.0,
    }
}

// By the word that leads a statement, and the token after it: GOTO's is its line number.
fn word_leads_on(own: LineNumber, word: Word, ahead: Scanned) -> bool
    ensures { result ≡ word_leads_on own.0 word ahead }
{
    match word {
        Word::Goto => {
            let token = ahead.token;
            goes_on(own, line_of(token))
        }
        Word::For | Word::Next | Word::Gosub | Word::Return | Word::While | Word::Wend => false,
        _ => true,
    }
}

// A statement of the line with a number, by how it is led.
pub(crate) fn leads_on(own: LineNumber, lead: Option<Lead>) -> bool
    ensures { result ≡ leads_on own.0 lead }
{
    match lead {
        None => true,
        Some(lead) => word_leads_on(own, lead.word, lead.ahead),
    }
}
