// The search down the stack for the record that a statement asks for.
ghost use Rattle.std.specs.Prelude.{◌≡◌, ◌<◌};
ghost use Rattle.machine.specs.bridge.Wanted.{found_in};
ghost use Rattle.stack.specs.bridge.Seeking.{seek_from, look_of};

use crate::slots::at;
use machine::{Record, Sought, is_sought, passes};

// How many records are left to look at, and what was found.
#[derive(Clone, Copy)]
pub struct Seek {
    pub left: usize,
    pub found: Option<usize>,
}

// Who asks for none looks at none.
#[tactic(auto, unfolding(crate::specs::bridge::Seeking::seek_from))]
pub(crate) fn seek_from(depth: usize, sought: Sought) -> Seek
    ensures { result ≡ seek_from depth sought }
{
    let left = match sought {
        Sought::Nothing => 0,
        _ => depth,
    };
    Seek { left, found: None }
}

// One record is looked at: the search ends at the one that is asked for, and at a GOSUB's.
#[tactic(auto, unfolding(crate::specs::bridge::Seeking::look_of))]
pub(crate) fn look(seek: Seek, entry: Record, sought: Sought) -> Seek
    requires { 0 < seek.left }
    ensures { result ≡ look_of seek entry sought }
{
    let left = seek.left - 1;
    if is_sought(sought, entry) {
        return Seek {
            left: 0,
            found: Some(left),
        };
    }
    if passes(entry) {
        return Seek { left, found: None };
    }
    Seek {
        left: 0,
        found: None,
    }
}

// Among the first `depth`; none below the nearest GOSUB's is looked at.
pub fn find(stack: &[Record], depth: usize, sought: Sought) -> Option<usize>
    ensures { result ≡ found_in sought stack.now depth }
{
    let mut seek = seek_from(depth, sought);
    while 0 < seek.left {
        let entry = at(stack, seek.left - 1);
        seek = look(seek, entry, sought);
    }
    seek.found
}
