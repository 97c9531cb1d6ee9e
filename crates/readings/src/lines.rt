// A reading's line: `single` or `double`, a tab, the bits in capital hex digits, byte 10.
ghost use Rattle.std.specs.Prelude.{◌≡◌, ◌≤◌, T};
ghost use Rattle.space.specs.Moves.{overlaid};
ghost use Rattle.readings.specs.Lines.{hex_digits, line_of};
ghost use Rattle.readings.specs.bridge.Groups.{is_number, Holds};

use crate::values::Reading;
use whole::hex_digit;

// The bytes of a line stand first.
#[derive(Clone, Copy)]
pub(crate) struct Line {
    pub bytes: [u8; Line::LONGEST],
    pub len: usize,
}

impl Line {
    pub const LONGEST: usize = 24;
}

// Where the digits of a line begin.
const DIGITS: usize = 7;

// The line with the last so many hex digits of some bits in their place.
fn with_digits(line: [u8; Line::LONGEST], bits: u64, count: usize) -> [u8; Line::LONGEST]
    requires { count ≤ 16 }
    ensures { result ≡ overlaid line 7 (hex_digits count bits) }
{
    let mut bytes = line;
    let mut left = bits;
    for i in (0..count).rev() {
        bytes[DIGITS + i] = hex_digit(left);
        left /= 16;
    }
    bytes
}

pub(crate) fn line_of(reading: Reading) -> Line
    requires { T (is_number reading) }
    ensures { Holds result (line_of reading) }
{
    match reading {
        Reading::Single(value) => {
            let blank = *b"single\t........\n........";
            let bytes = with_digits(blank, u64::from(value.to_bits()), 8);
            Line { bytes, len: 16 }
        }
        Reading::Double(value) => {
            let blank = *b"double\t................\n";
            let bytes = with_digits(blank, value.to_bits(), 16);
            Line { bytes, len: 24 }
        }
    }
}
