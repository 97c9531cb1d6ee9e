// The record that a statement asks for.
ghost use Rattle.std.specs.Prelude.{◌≡◌};
ghost use Rattle.statements.specs.Statements.{begun_by};
ghost use Rattle.words.specs.Names.{name_bytes, telling_of};
ghost use Rattle.machine.specs.bridge.Seeking.{Seeks, sought_loop, loop_sought};

use crate::records::Sought;
use statements::Lead;
use variables::{Numbers, slot_of};
use words::{Name, Place, Scanned, Token, Word};

// By how it is led.
pub fn sought_record(
    line: &[u8],
    here: Place,
    at: Place,
    lead: Option<Lead>,
    numbers: &Numbers,
) -> Sought
    ensures { Seeks numbers.now.names numbers.now.count here at result (begun_by line.now lead) }
{
    match lead {
        None => Sought::Nothing,
        Some(lead) => match lead.word {
            Word::Return => Sought::Call,
            Word::For => sought_loop(line, lead.ahead, numbers),
            Word::Next => sought_loop(line, lead.ahead, numbers),
            Word::While => Sought::WhileAt(here, at),
            Word::Wend => Sought::WhileOf(here, at),
            _ => Sought::Nothing,
        },
    }
}

fn sought_loop(line: &[u8], target: Scanned, numbers: &Numbers) -> Sought
    ensures { result ≡ sought_loop numbers.now.names numbers.now.count line.now target }
{
    let token = target.token;
    match token {
        Token::Named(name) => loop_of(line, name, numbers),
        _ => Sought::Loop,
    }
}

// A variable that was never assigned has no loop.
fn loop_of(line: &[u8], name: Name, numbers: &Numbers) -> Sought
    ensures { result ≡ loop_sought numbers.now.names numbers.now.count (telling_of (name_bytes line.now name)) }
{
    match slot_of(&numbers.names, line, name) {
        None => Sought::Nothing,
        Some(slot) => if slot < numbers.count {
            Sought::LoopOf(slot)
        } else {
            Sought::Nothing
        },
    }
}
