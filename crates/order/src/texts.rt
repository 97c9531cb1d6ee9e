// The statements of a text that loads, in text order.
ghost use Rattle.std.specs.Prelude.{◌≡◌, List, ◌∷◌, ◌≤◌, ◌<◌};
ghost use Rattle.machine.specs.bridge.Holding.{lines_at};
ghost use Rattle.machine.specs.Order as order;
ghost use Rattle.machine.specs.Order.{Stand, stands};
ghost use Rattle.order.specs.bridge.Walking.{Reached, Lined, Ahead, Spotted, Walks, lead_at, left_at, left_from, left_of};

use crate::lines::{first_beyond, passes};
use loader::{LineSpan, line_at};
use reader::next_statement;
use statements::{Lead, lead_at, statement_led};
use words::Place;

// A statement of a text: its line, and its place among the bytes after the line's number.
#[derive(Clone, Copy)]
pub struct Spot {
    pub line: LineSpan,
    pub at: Place,
}

// The first statement from a line on.
pub fn enter(text: &[u8], place: Place) -> Option<Spot>
    requires { Reached text.now place.0 }
    ensures { Walks text.now result (stands (lines_at text.now place.0))
        × (left_of text.now result ≤ left_from text.now place.0) }
{
    let mut at = place;
    while let Some(line) = line_at(text, at) {
        if passes(&text[line.body.0..line.end.0]) {
            return Some(Spot { line, at: Place(0) });
        }
        at = line.next;
    }
    None
}

// How the statement at a spot is led.
pub fn lead_of(text: &[u8], spot: Spot) -> Option<Lead>
    requires { Spotted text.now spot }
    ensures { result ≡ lead_at text.now spot }
{
    let line = spot.line;
    lead_at(&text[line.body.0..line.end.0], spot.at, true)
}

// The statement after the one at a spot, which is led so.
pub fn onward(text: &[u8], spot: Spot, lead: Option<Lead>) -> Option<Spot>
    requires { Spotted text.now spot × (lead ≡ lead_at text.now spot) }
    ensures { ((x : Stand) (xs : List Stand) → Ahead text.now spot (x ∷ xs) → Walks text.now result xs)
        × (left_of text.now result < left_at text.now spot) }
{
    let line = spot.line;
    match next_statement(statement_led(&text[line.body.0..line.end.0], lead)) {
        Some(at) => Some(Spot { line, at }),
        None => enter(text, line.next),
    }
}

// The first statement after a place of the line that begins at another.
pub fn later(text: &[u8], place: Place, at: Place) -> Option<Spot>
    requires { Lined text.now place.0 }
    ensures { Walks text.now result (order.later at.0 (lines_at text.now place.0)) }
{
    let line = line_at(text, place)?;
    let body = &text[line.body.0..line.end.0];
    if !passes(body) {
        return enter(text, line.next);
    }
    match first_beyond(body, at) {
        Some(found) => Some(Spot { line, at: found }),
        None => enter(text, line.next),
    }
}
