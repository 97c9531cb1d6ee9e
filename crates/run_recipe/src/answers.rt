// What a run answers, and the line that says it.
ghost use Rattle.std.specs.Prelude.{◌≡◌};
ghost use Rattle.whole.specs.Texts.{held};
ghost use Rattle.machine.specs.Machine.{lent_by};
ghost use Rattle.runner.specs.Run.{number_in, run_of};
ghost use Rattle.run_recipe.specs.Answers.{word_of, standing_in, last_line, Tells};

use console::{Answer, line};
use index::{Layout, index_of};
use loader::refusal_number;
use runner::{Outcome, run_with};
use variables::Tables;
use whole::{Text, number_of};

#[tactic(auto, unfolding(whole::specs::Bytes::bytes))]
fn word_of(outcome: Outcome) -> &'static [u8]
    ensures { result.now ≡ word_of outcome }
{
    match outcome {
        Outcome::Ended => b"ended",
        Outcome::Stopped(_) => b"stopped",
        Outcome::Out(_) => b"out",
        Outcome::Failed(_, _) => b"error",
        Outcome::Refused(_, _) => b"refused",
    }
}

fn number_in(outcome: Outcome) -> u8
    ensures { result ≡ number_in outcome }
{
    match outcome {
        Outcome::Ended | Outcome::Stopped(_) | Outcome::Out(_) => 0,
        Outcome::Failed(error, _) => number_of(error),
        Outcome::Refused(refusal, _) => refusal_number(refusal),
    }
}

// The line, or the place of a refusal.
fn standing_in(outcome: Outcome) -> u64
    ensures { result ≡ standing_in outcome }
{
    match outcome {
        Outcome::Ended => 0,
        Outcome::Stopped(line) | Outcome::Out(line) | Outcome::Failed(_, line) => {
            u64::from(line.0)
        }
        Outcome::Refused(_, place) => place.0 as u64,
    }
}

// Outcome, number, line or place, and steps, parted by tabs.
fn line_of(outcome: Outcome, steps: u32) -> Text
    ensures { result ≡ held (last_line outcome steps) }
{
    line(
        word_of(outcome),
        &[
            u64::from(number_in(outcome)),
            standing_in(outcome),
            u64::from(steps),
        ],
    )
}

// Runs the recipe over the space and the room. The run is handed the recipe's index; where there is none, words that are not taken for one.
pub(crate) fn answer_of(
    text: &[u8],
    input: &[u8],
    space: &mut [u8],
    room: &mut [u8],
    budget: u32,
    records: usize,
) -> Answer
    ensures { Tells (run_of text.now input.now (lent_by space.old room.old records) budget)
        result room.new }
{
    let mut index = [0; Layout::WORDS];
    let _ = index_of(text, &mut index);
    let ran = run_with(
        text,
        input,
        space,
        room,
        &index,
        records,
        budget,
        Tables::empty(),
    );
    Answer {
        written: ran.written,
        line: line_of(ran.outcome, ran.steps),
    }
}
