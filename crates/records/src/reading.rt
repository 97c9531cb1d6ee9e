// A run record: four fields parted by tabs, the outcome word, the error number or 0, the line and the steps.
ghost use Rattle.std.specs.Prelude.{◌≡◌};
ghost use Rattle.records.specs.Records.{leads_with_zero, figure_of, word_of, outcome_of, recorded, record_of};

use console::number_given;
use words::LineNumber;

// How a run came out; an error has its number.
#[derive(Clone, Copy)]
pub enum Outcome {
    Ended,
    Stopped,
    Out,
    Error(u8),
}

#[derive(Clone, Copy)]
pub struct Run {
    pub outcome: Outcome,
    pub steps: u32,
}

impl Run {
    pub const LARGEST_CODE: u32 = 255;

    pub const MOST_STEPS: u32 = 4294967295;
}

// The outcome words.
#[derive(Clone, Copy)]
pub enum OutcomeWord {
    Ended,
    Stopped,
    Out,
    Error,
}

const TAB: u8 = 9;

#[tactic(auto, using(crate::proofs::Words::word_told), unfolding(whole::specs::Bytes::bytes))]
fn word_of(field: &[u8]) -> Option<OutcomeWord>
    ensures { result ≡ word_of field.now }
{
    if field == b"ended".as_slice() {
        Some(OutcomeWord::Ended)
    } else if field == b"stopped".as_slice() {
        Some(OutcomeWord::Stopped)
    } else if field == b"out".as_slice() {
        Some(OutcomeWord::Out)
    } else if field == b"error".as_slice() {
        Some(OutcomeWord::Error)
    } else {
        None
    }
}

fn leads_with_zero(field: &[u8]) -> bool
    ensures { result ≡ leads_with_zero field.now }
{
    matches!(field, [b'0', _, ..])
}

// A number of at most so much, without leading zeros.
#[tactic(auto, unfolding(crate::specs::Records::figure_of))]
fn figure_of(field: &[u8], most: u32) -> Option<u32>
    ensures { result ≡ figure_of most field.now }
{
    if leads_with_zero(field) {
        return None;
    }
    number_given(field, most).ok()
}

// What a word and a number tell together: the number is 1 to 255 for error and 0 otherwise.
fn outcome_of(word: OutcomeWord, number: u8) -> Option<Outcome>
    ensures { result ≡ outcome_of word number }
{
    match (word, number) {
        (OutcomeWord::Ended, 0) => Some(Outcome::Ended),
        (OutcomeWord::Stopped, 0) => Some(Outcome::Stopped),
        (OutcomeWord::Out, 0) => Some(Outcome::Out),
        (OutcomeWord::Error, 1..) => Some(Outcome::Error(number)),
        _ => None,
    }
}

// The record that four fields make.
#[tactic(auto, unfolding(crate::specs::Records::recorded))]
fn record_from(word: &[u8], number: &[u8], line: &[u8], steps: &[u8]) -> Option<Run>
    ensures { result ≡ recorded word.now number.now line.now steps.now }
{
    let code = figure_of(number, Run::LARGEST_CODE)?;
    let _line = figure_of(line, LineNumber::LARGEST as u32)?;
    let steps = figure_of(steps, Run::MOST_STEPS)?;
    let outcome = outcome_of(word_of(word)?, code as u8)?;
    Some(Run { outcome, steps })
}

// The record that a line is: it has just four fields.
pub fn record_of(line: &[u8]) -> Option<Run>
    ensures { result ≡ record_of line.now }
{
    let mut fields = line.split(|byte| *byte == TAB);
    let word = fields.next()?;
    let number = fields.next()?;
    let place = fields.next()?;
    let steps = fields.next()?;
    if let Some(_fifth) = fields.next() {
        return None;
    }
    record_from(word, number, place, steps)
}
