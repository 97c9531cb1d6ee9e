// The offset of a byte in the string space, a kind of number of its own.
#[derive(Clone, Copy)]
pub struct Offset(pub usize);
