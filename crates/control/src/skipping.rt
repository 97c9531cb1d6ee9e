// A FOR whose body is not to run.
ghost use Rattle.std.specs.Prelude.{◌≡◌, List, ◌∷◌, true};
ghost use Rattle.words.specs.Names.{name_bytes, telling_of};
ghost use Rattle.words.specs.declared.symbols.Word.TheVariants as word;
ghost use Rattle.statements.specs.Parts.{head_of};
ghost use Rattle.machine.specs.bridge.Holding.{lines_at};
ghost use Rattle.machine.specs.Order.{Stand, is_led, next_for};
ghost use Rattle.order.specs.bridge.Walking.{Lined, Spotted, Ahead};
ghost use Rattle.control.specs.bridge.Skipping.{other_named, other_led, PastNext, Skips};

use machine::Next;
use order::{Spot, lead_of, partner_after, position_past};
use statements::Lead;
use whole::Error;
use words::{Kind, Name, Place, Token, Word, is_told, telling_of};

// Whether a variable is another than one that stands in a line of its own; a string is.
fn is_other(line: &[u8], found: Name, own: &[u8], name: Name) -> bool
    ensures { result ≡ other_named line.now (telling_of (name_bytes own.now name)) found }
{
    let kind = found.kind;
    match kind {
        Kind::Text => true,
        Kind::Whole => {
            let telling = telling_of(line, found);
            !is_told(&telling, 0, own, name)
        }
    }
}

// Whether a NEXT that is led so names another variable.
fn names_other(line: &[u8], lead: Option<Lead>, own: &[u8], name: Name) -> bool
    ensures { result ≡ other_led line.now (telling_of (name_bytes own.now name)) lead }
{
    let Some(lead) = lead else {
        return false;
    };
    let token = lead.ahead.token;
    match token {
        Token::Named(found) => is_other(line, found, own, name),
        _ => false,
    }
}

// After the NEXT at a spot, unless it names another variable.
fn past_next(text: &[u8], spot: Spot, own: &[u8], name: Name) -> Next
    requires { Spotted text.now spot }
    ensures { (x : Stand) (xs : List Stand) → Ahead text.now spot (x ∷ xs) → is_led word.Next (head_of x.part) ≡ true
        → PastNext text.now (telling_of (name_bytes own.now name)) result x }
{
    let line = spot.line;
    let from = line.body.0;
    let end = line.end.0;
    let lead = lead_of(text, spot);
    if names_other(&text[from..end], lead, own, name) {
        return Next::Fails(Error::NextWithoutFor);
    }
    Next::On(position_past(text, spot))
}

// The body of a FOR that stands at a place of its line is skipped: the run goes on after its NEXT; none is 26.
pub(crate) fn skip_body(text: &[u8], line: Place, at: Place, own: &[u8], name: Name) -> Next
    requires { Lined text.now line.0 }
    ensures { Skips text.now (telling_of (name_bytes own.now name)) result (next_for at.0 (lines_at text.now line.0)) }
{
    match partner_after(text, line, at, Word::For, Word::Next) {
        None => Next::Fails(Error::ForWithoutNext),
        Some(spot) => past_next(text, spot, own, name),
    }
}
