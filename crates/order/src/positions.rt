// Where a run goes on after a statement.
ghost use Rattle.std.specs.Prelude.{◌≡◌, List, ◌∷◌};
ghost use Rattle.machine.specs.bridge.Holding.{position_of, Positioned};
ghost use Rattle.machine.specs.Order.{Stand, past};
ghost use Rattle.order.specs.bridge.Walking.{Ahead, Spotted, past_read};

use crate::texts::Spot;
use grammar::is_symbol;
use machine::Position;
use statements::{StatementRead, statement_at};
use words::{Place, Sign};

// After a statement of a line that was read: at what stands after its colon, or the line is over, as it is after an IF.
fn past_read(line: Place, read: Option<StatementRead>) -> Position
    ensures { result ≡ past_read line read }
{
    let Some(StatementRead::Done(own)) = read else {
        return Position {
            line,
            at: line,
            over: true,
        };
    };
    Position {
        line,
        at: own.ahead.next,
        over: !is_symbol(Sign::Colon, own.ahead.token),
    }
}

// After the statement at a spot.
pub fn position_past(text: &[u8], spot: Spot) -> Position
    requires { Spotted text.now spot }
    ensures { (x : Stand) (xs : List Stand) → Ahead text.now spot (x ∷ xs)
        → Positioned text.now result × (position_of text.now result ≡ past x) }
{
    let line = spot.line;
    let body = &text[line.body.0..line.end.0];
    past_read(line.place, statement_at(body, spot.at, true))
}
