// Printing into the lent room.
ghost use Rattle.std.specs.Prelude.{◌≡◌, ◌+◌, ◌-◌, ◌%◌, ◌<◌, ◌^◌, length, replicate};
ghost use Rattle.space.specs.Moves.{copied};
ghost use Rattle.machine.specs.Machine.{column_after};
ghost use Rattle.machine.specs.bridge.Holding.{printed_as, Fitting};
ghost use Rattle.whole.specs.Bytes.{blank};

use crate::state::Printer;
use space::{Offset, copy_in};

const LINE_FEED: u8 = 10;

const BLANKS: [u8; 14] = [b' '; 14];

// The column after some bytes.
fn column_after(column: usize, bytes: &[u8]) -> usize
    requires { column + length bytes.now < 2 ^ 64 }
    ensures { result ≡ column_after column bytes.now }
{
    let mut count = column;
    for byte in bytes {
        if *byte == LINE_FEED {
            count = 0;
        } else {
            count += 1;
        }
    }
    count
}

// The printer after the bytes. If there is no room for all, none is written, and the printer before stands.
pub fn write(printer: Printer, room: &mut [u8], bytes: &[u8]) -> Option<Printer>
    requires { Fitting printer room.old }
    ensures { (result ≡ printed_as printer (length room.old) bytes.now)
        × (room.new ≡ copied room.old printer.written bytes.now) }
{
    let at = printer.written;
    if room.len() - at < bytes.len() {
        return None;
    }
    copy_in(room, Offset(at), bytes);
    Some(Printer {
        column: column_after(printer.column, bytes),
        written: at + bytes.len(),
    })
}

// A comma gives 14 minus (column mod 14) blanks.
pub fn write_comma(printer: Printer, room: &mut [u8]) -> Option<Printer>
    requires { Fitting printer room.old }
    ensures { (result ≡ printed_as printer (length room.old) (replicate (14 - printer.column % 14) blank))
        × (room.new ≡ copied room.old printer.written (replicate (14 - printer.column % 14) blank)) }
{
    let blanks = BLANKS;
    let count = 14 - printer.column % 14;
    write(printer, room, &blanks[..count])
}
