// Taking an item of a text's DATA statements.
ghost use Rattle.std.specs.Prelude.{◌≡◌, List, ℕ, ◌≤◌};
ghost use Rattle.words.specs.Places.{longest_line};
ghost use Rattle.machine.specs.Order.{Stand};
ghost use Rattle.machine.specs.Items.{items_of};
ghost use Rattle.machine.specs.bridge.Holding.{Outside, Inside, Feeds};
ghost use Rattle.order.specs.bridge.Walking.{Walks, Walking};
ghost use Rattle.feeding.specs.bridge.Taking.{Feedable, Walkable, Takeable, ItemsLed, WalksOver, SoughtAs, feed_of, TakenAs};

use grammar::is_symbol;
use items::{Item, item_at};
use loader::{LineSpan, line_at};
use machine::Feed;
use order::{Spot, enter, lead_of, onward};
use scanner::token_at;
use statements::Lead;
use words::{Place, Sign, Word};

// By how the statement is led.
fn items_of(lead: Option<Lead>) -> Option<Place>
    ensures { ItemsLed lead result }
{
    let lead = lead?;
    match lead.word {
        Word::Data => Some(lead.ahead.next),
        _ => None,
    }
}

// The first item of the statements from where a walk is.
fn first_from(text: &[u8], from: Option<Spot>) -> Option<(LineSpan, Place)>
    requires { Walking text.now from }
    ensures { (xs : List Stand) → Walks text.now from xs → SoughtAs text.now result (items_of xs) }
{
    let mut walk = from;
    loop {
        let Some(spot) = walk else {
            return None;
        };
        let lead = lead_of(text, spot);
        if let Some(at) = items_of(lead) {
            let line = spot.line;
            return Some((line, at));
        }
        walk = onward(text, spot, lead);
    }
}

// The first statement from where the items go on.
fn walk_from(text: &[u8], feed: Feed) -> Option<Spot>
    requires { Walkable text.now feed }
    ensures { (l : List (List ℕ)) → Outside text.now feed.line.0 feed.at.0 l → WalksOver text.now result l }
{
    let place = feed.line;
    let at = feed.at;
    if at.0 == 0 {
        return enter(text, place);
    }
    match line_at(text, place) {
        None => None,
        Some(line) => Some(Spot { line, at }),
    }
}

// Where the next item begins.
fn seek(text: &[u8], feed: Feed) -> Option<(LineSpan, Place)>
    requires { Feedable text.now feed }
    ensures { (l : List (List ℕ)) → Feeds text.now feed l → SoughtAs text.now result l }
{
    if !feed.inside {
        return first_from(text, walk_from(text, feed));
    }
    let place = feed.line;
    let at = feed.at;
    match line_at(text, place) {
        None => None,
        Some(line) => Some((line, at)),
    }
}

// Where the items go on after one: after its comma, after the colon that ends the statement, or at the next line.
fn feed_after(body: &[u8], line: LineSpan, item: Item) -> Feed
    requires { item.end.0 ≤ longest_line }
    ensures { result ≡ feed_of body.now line item }
{
    let place = line.place;
    let next = line.next;
    let end = item.end;
    if item.more {
        return Feed {
            line: place,
            at: Place(end.0 + 1),
            inside: true,
        };
    }
    let ahead = token_at(body, end);
    let token = ahead.token;
    let past = ahead.next;
    if is_symbol(Sign::Colon, token) {
        return Feed {
            line: place,
            at: past,
            inside: false,
        };
    }
    Feed::from_line(next)
}

// The item that begins at a place of a line.
fn item_in(text: &[u8], line: LineSpan, at: Place) -> Option<(Place, usize, Feed)>
    requires { Takeable text.now line at.0 }
    ensures { (l : List (List ℕ)) → Inside text.now line.place.0 at.0 l → TakenAs text.now result l }
{
    let from = line.body.0;
    let end = line.end.0;
    let body = &text[from..end];
    match item_at(body, at) {
        None => None,
        Some(item) => {
            let first = from + item.from.0;
            let len = item.len;
            let feed = feed_after(body, line, item);
            Some((Place(first), len, feed))
        }
    }
}

// The next item.
pub(crate) fn take_item(text: &[u8], feed: Feed) -> Option<(Place, usize, Feed)>
    requires { Feedable text.now feed }
    ensures { (l : List (List ℕ)) → Feeds text.now feed l → TakenAs text.now result l }
{
    match seek(text, feed) {
        None => None,
        Some((line, at)) => item_in(text, line, at),
    }
}
