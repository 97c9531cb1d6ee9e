// Where a run goes on.
use crate::records::Record;
use crate::state::Machine;
use whole::Error;
use words::Place;

// A place to come back to: the line, by where it begins in the text, and the place in it of the next statement, unless the line is
// over.
#[derive(Clone, Copy)]
pub struct Position {
    pub line: Place,
    pub at: Place,
    pub over: bool,
}

// What a statement comes to: the run goes on at a place, or at a line's start, or it ends.
#[derive(Clone, Copy)]
pub enum Next {
    On(Position),
    Enter(Place),
    Ends,
    Stops,
    Fails(Error),
}

// The machine after a statement, where the run goes on, and the record that is written; a slot past the last writes none.
#[derive(Clone, Copy)]
pub struct Turned {
    pub machine: Machine,
    pub next: Next,
    pub slot: usize,
    pub held: Record,
}
