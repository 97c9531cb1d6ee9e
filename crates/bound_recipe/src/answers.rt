// The line that says how long a recipe can take.
ghost use Rattle.std.specs.Prelude.{◌≡◌};
ghost use Rattle.whole.specs.Texts.{held};
ghost use Rattle.bounding.specs.Bounding.{bound_of};
ghost use Rattle.bound_recipe.specs.Answers.{line_of};

use bounding::bound_of;
use console::{line, refused_line};
use loader::{RefusedAt, refusal_number};
use whole::Text;

#[tactic(auto, unfolding(whole::specs::Bytes::bytes))]
pub(crate) fn line_of(text: &[u8]) -> Text
    ensures { result ≡ held (line_of (bound_of text.now)) }
{
    match bound_of(text) {
        Ok(Some(steps)) => line(b"bounded", &[u64::from(steps)]),
        Ok(None) => line(b"not bounded", &[]),
        Err(RefusedAt { refusal, place }) => {
            refused_line(refusal_number(refusal), place.0 as u64)
        }
    }
}
