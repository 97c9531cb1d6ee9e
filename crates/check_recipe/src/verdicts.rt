// The line that says what the check answers.
ghost use Rattle.std.specs.Prelude.{◌≡◌};
ghost use Rattle.whole.specs.Texts.{held};
ghost use Rattle.checker.specs.Check.{check_of};
ghost use Rattle.check_recipe.specs.Answers.{line_of};

use checker::{Fault, check_recipe};
use console::{line, refused_line};
use loader::refusal_number;
use whole::{Text, number_of};

#[tactic(auto, unfolding(whole::specs::Bytes::bytes))]
pub(crate) fn line_of(text: &[u8]) -> Text
    ensures { result ≡ held (line_of (check_of text.now)) }
{
    match check_recipe(text) {
        Ok(()) => line(b"passed", &[]),
        Err(Fault::Refused(refusal, place)) => refused_line(
            refusal_number(refusal),
            place.0 as u64,
        ),
        Err(Fault::Faulty(error, line)) => refused_line(number_of(error), u64::from(line.0)),
    }
}
