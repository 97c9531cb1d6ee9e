// Taking a line of the input.
ghost use Rattle.std.specs.Prelude.{◌≡◌};
ghost use Rattle.machine.specs.bridge.Taking.{taken_at};

use crate::state::Machine;
use loader::{Extent, extent_at};
use whole::Error;
use words::Place;

// The line from a place on: 62 if no bytes are left, 23 if over 254 bytes.
pub fn take_line(input: &[u8], from: Place) -> Result<Extent, Error>
    ensures { result ≡ taken_at input.now from.0 }
{
    let start = from.0;
    if input.len() <= start {
        return Err(Error::InputPastEnd);
    }
    let extent = extent_at(input, from);
    let end = extent.end.0;
    if Machine::LONGEST_INPUT_LINE < end - start {
        return Err(Error::LineBufferOverflow);
    }
    Ok(extent)
}
