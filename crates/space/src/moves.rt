// Each function does nothing where what it is asked for does not lie in the slice.
ghost use Rattle.std.specs.Prelude.{◌≡◌, ◌+◌, leb, length};
ghost use Rattle.space.specs.Moves.{copied, moved, cleared};

use crate::offsets::Offset;

// Whether so many bytes from an offset on lie in a slice of a length.
pub fn fits(len: usize, at: Offset, count: usize) -> bool
    ensures { result ≡ leb (at.0 + count) len }
{
    count <= len && at.0 <= len - count
}

// Copies bytes in at an offset.
pub fn copy_in(space: &mut [u8], to: Offset, bytes: &[u8])
    ensures { space.new ≡ copied space.old to.0 bytes.now }
{
    if fits(space.len(), to, bytes.len()) {
        for (i, byte) in bytes.iter().enumerate() {
            space[to.0 + i] = *byte;
        }
    }
}

// Moves bytes from one offset to another, over an overlap too.
pub fn move_bytes(space: &mut [u8], from: Offset, to: Offset, count: usize)
    ensures { space.new ≡ moved space.old from.0 to.0 count }
{
    if fits(space.len(), from, count) && fits(space.len(), to, count) {
        space.copy_within(from.0..from.0 + count, to.0);
    }
}

// Zeros from an offset to the end.
pub fn clear_from(space: &mut [u8], from: Offset)
    ensures { space.new ≡ cleared space.old from.0 }
{
    if from.0 < space.len() {
        space[from.0..].fill(0);
    }
}
