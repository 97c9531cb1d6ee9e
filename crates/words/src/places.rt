// Numbers of a kind of their own, so that a jump and a cursor can't be confused.

// The number of a line.
#[derive(Clone, Copy, PartialEq, Eq, PartialOrd, Ord)]
pub struct LineNumber(pub u16);

impl LineNumber {
    pub const LARGEST: u16 = 65529;
}

// The place of a byte, counted from 0.
#[derive(Clone, Copy, PartialEq, Eq, PartialOrd, Ord)]
pub struct Place(pub usize);

impl Place {
    // The last place where a name or a quoted text can be said to stand.
    pub const FURTHEST: usize = 65535;
}
