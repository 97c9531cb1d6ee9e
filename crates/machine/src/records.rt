// The records that FOR, GOSUB and WHILE leave, the topmost last.
ghost use Rattle.std.specs.Prelude.{◌≡◌};
ghost use Rattle.machine.specs.bridge.Holding.{blank_record, back_of, over_number, call_record, loop_record, while_record, passes};
ghost use Rattle.machine.specs.bridge.Wanted.{is_sought};

use crate::positions::Position;
use words::Place;

// A FOR's: its variable's entry among the number variables, limit and step; a GOSUB's; or a WHILE's. All have the place to come back to. Numbers
// alone: a host may lend any bytes, so every kind but a FOR's and a WHILE's is a GOSUB's, and every number but 0 says that the line is over.
#[repr(C)]
#[derive(Clone, Copy)]
pub struct Record {
    pub kind: u8,
    pub over: u8,
    pub limit: u16,
    pub step: u16,
    // Always 0: it fills what would be padding, so that a blank record is zeros to the last byte.
    pub spare: u16,
    pub slot: usize,
    // Where the line begins that the run comes back to, and the place in it; of a WHILE's also those of its WEND.
    pub line: usize,
    pub at: usize,
    pub ending: usize,
    pub close: usize,
}

// The record that a statement asks for: none, the nearest GOSUB's, the topmost FOR's, that of the loop of the variable at an entry, that of
// the WHILE at a place of the line that begins at another, or that of the WHILE whose WEND stands there.
#[derive(Clone, Copy, PartialEq, Eq)]
pub enum Sought {
    Nothing,
    Call,
    Loop,
    LoopOf(usize),
    WhileAt(Place, Place),
    WhileOf(Place, Place),
}

impl Record {
    pub const CALL: u8 = 1;

    pub const COUNT: u8 = 2;

    pub const REPEAT: u8 = 3;

    pub fn blank() -> Record
        ensures { result ≡ blank_record }
    {
        Record {
            kind: 0,
            over: 0,
            limit: 0,
            step: 0,
            spare: 0,
            slot: 0,
            line: 0,
            at: 0,
            ending: 0,
            close: 0,
        }
    }

    // A GOSUB's.
    pub fn calls(back: Position) -> Record
        ensures { result ≡ call_record back }
    {
        let line = back.line.0;
        let at = back.at.0;
        Record {
            kind: Record::CALL,
            over: over_number(back.over),
            limit: 0,
            step: 0,
            spare: 0,
            slot: 0,
            line,
            at,
            ending: 0,
            close: 0,
        }
    }

    // A WHILE's, which stands at a place, and whose WEND at another.
    pub fn repeats(line: Place, at: Place, ending: Place, close: Place) -> Record
        ensures { result ≡ while_record line at ending close }
    {
        Record {
            kind: Record::REPEAT,
            over: 0,
            limit: 0,
            step: 0,
            spare: 0,
            slot: 0,
            line: line.0,
            at: at.0,
            ending: ending.0,
            close: close.0,
        }
    }

    // A FOR's.
    pub fn counts(slot: usize, limit: u16, step: u16, back: Position) -> Record
        ensures { result ≡ loop_record slot limit step back }
    {
        let line = back.line.0;
        let at = back.at.0;
        Record {
            kind: Record::COUNT,
            over: over_number(back.over),
            limit,
            step,
            spare: 0,
            slot,
            line,
            at,
            ending: 0,
            close: 0,
        }
    }

    // The place to come back to.
    pub fn back(self) -> Position
        ensures { result ≡ back_of self }
    {
        Position {
            line: Place(self.line),
            at: Place(self.at),
            over: self.over != 0,
        }
    }
}

fn over_number(over: bool) -> u8
    ensures { result ≡ over_number over }
{
    if over {
        return 1;
    }
    0
}

// A search goes on past a FOR's and a WHILE's.
pub fn passes(entry: Record) -> bool
    ensures { result ≡ passes entry }
{
    if entry.kind == Record::COUNT {
        return true;
    }
    entry.kind == Record::REPEAT
}

// Whether a record is the one that is asked for.
pub fn is_sought(sought: Sought, entry: Record) -> bool
    ensures { result ≡ is_sought sought entry }
{
    match sought {
        Sought::Nothing => false,
        Sought::Call => !passes(entry),
        Sought::Loop => entry.kind == Record::COUNT,
        Sought::LoopOf(slot) => entry.kind == Record::COUNT && entry.slot == slot,
        Sought::WhileAt(line, at) => entry.kind == Record::REPEAT
            && entry.line == line.0
            && entry.at == at.0,
        Sought::WhileOf(line, at) => entry.kind == Record::REPEAT
            && entry.ending == line.0
            && entry.close == at.0,
    }
}
