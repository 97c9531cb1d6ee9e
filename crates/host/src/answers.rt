// What a host is answered with, as numbers.
ghost use Rattle.std.specs.Prelude.{◌≡◌, List, [], ◌∷◌, ℕ};
ghost use Rattle.runner.specs.Run.{number_in, line_in, place_in};
ghost use Rattle.runner.specs.bridge.Endings.{ran_of};
ghost use Rattle.whole.specs.Whole.{num};
ghost use Rattle.host.specs.Answers.{outcome_in, answer_in, extended_of, verdict_in, found_in};
ghost use Rattle.variables.specs.declared.tables.Tables.{Tables};

use asking::Asked;
use checker::Fault;
use loader::{Refusal, refusal_number};
use runner::{Done, Outcome};
use whole::number_of;

// The outcomes.
const ENDED: u64 = 0;

const STOPPED: u64 = 1;

const OUT: u64 = 2;

const FAILED: u64 = 3;

const REFUSED: u64 = 4;

// The kinds of a variable.
const WHOLE: u64 = 0;

const TEXT: u64 = 1;

pub(crate) fn wide_size(size: usize) -> u64
    ensures { result ≡ size }
{
    size as u64
}

// Outcome, number, line and place.
fn ending_of(outcome: Outcome) -> [u64; 4]
    ensures { result ≡ outcome_in outcome ∷ number_in outcome ∷ line_in outcome ∷ place_in outcome ∷ [] }
{
    match outcome {
        Outcome::Ended => [ENDED, 0, 0, 0],
        Outcome::Stopped(line) => [STOPPED, 0, u64::from(line.0), 0],
        Outcome::Out(line) => [OUT, 0, u64::from(line.0), 0],
        Outcome::Failed(error, line) => [FAILED, u64::from(number_of(error)), u64::from(line.0), 0],
        Outcome::Refused(refusal, place) => [
            REFUSED,
            u64::from(refusal_number(refusal)),
            0,
            wide_size(place.0),
        ],
    }
}

// Outcome, number, line, place, steps, bytes written and input bytes taken.
pub(crate) fn answer_of(done: Done) -> [u64; 7]
    ensures { (tables : Tables) → result ≡ answer_in (ran_of done tables) }
{
    let [outcome, number, line, place] = ending_of(done.outcome);
    [
        outcome,
        number,
        line,
        place,
        u64::from(done.steps),
        wide_size(done.written),
        wide_size(done.taken),
    ]
}

// Passed or refused, number, line and place.
pub(crate) fn verdict_of(verdict: Result<(), Fault>) -> [u64; 4]
    ensures { result ≡ verdict_in verdict }
{
    match verdict {
        Ok(()) => [0, 0, 0, 0],
        Err(Fault::Refused(refusal, place)) => [
            1,
            u64::from(refusal_number(refusal)),
            0,
            wide_size(place.0),
        ],
        Err(Fault::Faulty(error, line)) => [1, u64::from(number_of(error)), u64::from(line.0), 0],
    }
}

// A whole number in 64 bits of two's complement.
fn extended(word: u16) -> u64
    ensures { result ≡ extended_of (num word) }
{
    i64::from(word.cast_signed()).cast_unsigned()
}

// Number, kind, value, start and length.
pub(crate) fn found_of(asked: Result<Asked, Refusal>) -> [u64; 5]
    ensures { result ≡ found_in asked }
{
    match asked {
        Ok(Asked::Whole(word)) => [0, WHOLE, extended(word), 0, 0],
        Ok(Asked::Text(start, length)) => [0, TEXT, 0, wide_size(start.0), wide_size(length)],
        Err(refusal) => [u64::from(refusal_number(refusal)), 0, 0, 0, 0],
    }
}
