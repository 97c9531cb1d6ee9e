// The statements of a line in text order, by their places.
ghost use Rattle.std.specs.Prelude.{◌≡◌};
ghost use Rattle.grammar.specs.Trees.{Part};
ghost use Rattle.statements.specs.Parts.{parts_of};
ghost use Rattle.reader.specs.Lines.{holds, judgement};
ghost use Rattle.reader.specs.bridge.Walking.{StartsAs};
ghost use Rattle.machine.specs.Order.{beyond};
ghost use Rattle.order.specs.bridge.Walking.{PassesIf};

use reader::{judge, next_statement};
use statements::statement_at;
use words::Place;

// Whether a line reads and does not nest too deep.
#[tactic(auto, using(crate::proofs::Lining::passes_told))]
pub(crate) fn passes(line: &[u8]) -> bool
    ensures { PassesIf line.now result }
{
    judge(line).is_ok()
}

// The first statement that begins after a place.
pub(crate) fn first_beyond(line: &[u8], at: Place) -> Option<Place>
    ensures { (part : Part) → judgement line.now ≡ holds part → StartsAs line.now result (beyond at.0 (parts_of part)) }
{
    let limit = at.0;
    let mut here = Place(0);
    loop {
        if limit < here.0 {
            return Some(here);
        }
        here = next_statement(statement_at(line, here, true))?;
    }
}
