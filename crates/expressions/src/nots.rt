// A chain of NOT, passed over in a loop: what it fronts is one formula of NOT's level.
ghost use Rattle.std.specs.Prelude.{◌≡◌};
ghost use Rattle.expressions.specs.bridge.Nots.{nots_of};

use scanner::token_at;
use words::{Scanned, Token};

// The token behind a chain of NOT, and whether an odd number of them stands in it.
#[derive(Clone, Copy)]
pub struct Nots {
    pub ahead: Scanned,
    pub odd: bool,
}

// From a token on; a chain may be empty.
pub fn past_nots(line: &[u8], ahead: Scanned) -> Nots
    ensures { result ≡ nots_of line.now ahead }
{
    let mut here = ahead;
    let mut odd = false;
    while let Token::Not = here.token {
        here = token_at(line, here.next);
        odd = !odd;
    }
    Nots { ahead: here, odd }
}
