// Words in a lent slice.
ghost use Rattle.std.specs.Prelude.{◌≡◌, ◌+◌, ◌≤◌, length};
ghost use Rattle.space.specs.Moves.{overlaid};

// Words laid over as many others.
pub(crate) fn put_words(room: &mut [u16], to: usize, words: &[u16])
    requires { to + length words.now ≤ length room.old }
    ensures { room.new ≡ overlaid room.old to words.now }
{
    room[to..to + words.len()].copy_from_slice(words);
}
