// The most steps that a run of a recipe can take.
ghost use Rattle.std.specs.Prelude.{◌≡◌};
ghost use Rattle.bounding.specs.Bounding.{bound_of};

use crate::jumps::leads_on;
use loader::{RefusedAt, load};
use order::{enter, lead_of, onward};
use words::Place;

// No run takes more steps than this, the number of statements of a text, if each leads a run only to what stands after it; else nothing
// is said of the recipe. It is refused as in loading.
pub fn bound_of(text: &[u8]) -> Result<Option<u32>, RefusedAt>
    ensures { result ≡ bound_of text.now }
{
    load(text)?;
    let mut walk = enter(text, Place(0));
    let mut count: u32 = 0;
    while let Some(spot) = walk {
        let lead = lead_of(text, spot);
        if !leads_on(spot.line.number, lead) {
            return Ok(None);
        }
        count += 1;
        walk = onward(text, spot, lead);
    }
    Ok(Some(count))
}
