// The machine: counts of what was printed, taken and done, and how much of the tables is in use.
ghost use Rattle.std.specs.Prelude.{◌≡◌};
ghost use Rattle.machine.specs.bridge.Holding.{feed_from, fresh_machine};

use space::Offset;
use words::Place;

// The bytes since the last byte 10, and how many bytes were written.
#[derive(Clone, Copy)]
pub struct Printer {
    pub column: usize,
    pub written: usize,
}

// Where the items of DATA go on: a line, by where it begins in the text, and a place in it. Inside a DATA statement the next item begins
// there; else it is the first of the statements from there on.
#[derive(Clone, Copy)]
pub struct Feed {
    pub line: Place,
    pub at: Place,
    pub inside: bool,
}

// The variables' tables are lent beside it, and so are the records.
#[derive(Clone, Copy)]
pub struct Machine {
    // Where the variables' bytes end in the string space.
    pub used: Offset,
    pub printer: Printer,
    // The first byte of input that was not taken.
    pub taken: Place,
    pub feed: Feed,
    pub steps: u32,
    // How many records there are, and how many there can be.
    pub depth: usize,
    pub records: usize,
}

impl Feed {
    // All items from a line on.
    pub fn from_line(line: Place) -> Feed
        ensures { result ≡ feed_from line }
    {
        Feed {
            line,
            at: Place(0),
            inside: false,
        }
    }
}

impl Machine {
    // The most records that may be lent.
    pub const RECORDS: usize = 256;

    pub const LONGEST_SPACE: usize = 16384;

    pub const LONGEST_INPUT_LINE: usize = 254;

    // Every variable unset, column 0.
    pub fn fresh(records: usize) -> Machine
        ensures { result ≡ fresh_machine records }
    {
        Machine {
            used: Offset(0),
            printer: Printer {
                column: 0,
                written: 0,
            },
            taken: Place(0),
            feed: Feed::from_line(Place(0)),
            steps: 0,
            depth: 0,
            records,
        }
    }
}
