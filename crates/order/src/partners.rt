// Pairs by nesting over the statements of a text.
ghost use Rattle.std.specs.Prelude.{◌≡◌, List, ◌^◌, ◌≤◌};
ghost use Rattle.machine.specs.bridge.Holding.{lines_at};
ghost use Rattle.machine.specs.Order as order;
ghost use Rattle.machine.specs.Order.{Stand, pairs_by};
ghost use Rattle.order.specs.bridge.Walking.{Lined, Walks, Walking, marked_by, counted_by, PartnerAs};

use crate::texts::{Spot, later, lead_of, onward};
use statements::Lead;
use words::{Place, Word};

// What a statement does to a pairing.
#[derive(Clone, Copy)]
pub enum Bracket {
    Opens,
    Closes,
    Neither,
}

// By the word that leads a statement.
fn marked(opens: Word, closes: Word, lead: Option<Lead>) -> Bracket
    ensures { result ≡ marked_by opens closes lead }
{
    let Some(lead) = lead else {
        return Bracket::Neither;
    };
    if lead.word == opens {
        return Bracket::Opens;
    }
    if lead.word == closes {
        return Bracket::Closes;
    }
    Bracket::Neither
}

// One more that opens, or one that closes.
fn counted(bracket: Bracket, waiting: usize) -> Option<usize>
    requires { waiting ≤ 2 ^ 63 }
    ensures { result ≡ counted_by bracket waiting }
{
    match bracket {
        Bracket::Opens => Some(waiting + 1),
        Bracket::Closes => if waiting == 0 {
            None
        } else {
            Some(waiting - 1)
        },
        Bracket::Neither => Some(waiting),
    }
}

// From where a walk is, the first statement that closes once those that open before it have been paired; past the last, none does.
pub fn partner(text: &[u8], from: Option<Spot>, opens: Word, closes: Word) -> Option<Spot>
    requires { Walking text.now from }
    ensures { (xs : List Stand) → Walks text.now from xs
        → PartnerAs text.now result (order.partner (pairs_by opens closes) 0 xs) }
{
    let mut walk = from;
    let mut waiting: usize = 0;
    while let Some(spot) = walk {
        let lead = lead_of(text, spot);
        let Some(count) = counted(marked(opens, closes, lead), waiting) else {
            return Some(spot);
        };
        waiting = count;
        walk = onward(text, spot, lead);
    }
    None
}

// The partner of a statement that stands at a place of the line that begins at another.
pub fn partner_after(text: &[u8], line: Place, at: Place, opens: Word, closes: Word) -> Option<Spot>
    requires { Lined text.now line.0 }
    ensures { PartnerAs text.now result
        (order.partner (pairs_by opens closes) 0 (order.later at.0 (lines_at text.now line.0))) }
{
    partner(text, later(text, line, at), opens, closes)
}
