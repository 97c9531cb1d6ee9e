// What working out answers.
ghost use Rattle.std.specs.Prelude.{◌≡◌, ◌+◌, leb, length};
ghost use Rattle.variables.specs.bridge.Memory.{answered_as, mismatch_of, text_length};

use space::{Offset, fits};
use whole::Error;
use words::Scanned;

// A whole number, or a text of so many bytes that stands from the old `used` on, and the token that follows.
#[derive(Clone, Copy)]
pub enum Worked {
    Whole(u16, Scanned),
    Text(usize, Scanned),
}

// A whole number or its error, and the token that follows.
pub fn answered(answer: Result<u16, Error>, ahead: Scanned) -> Result<Worked, Error>
    ensures { result ≡ answered_as answer ahead }
{
    Ok(Worked::Whole(answer?, ahead))
}

// Where an answer is not of the type that is wanted: its own error, or 13.
pub fn mismatch(worked: Result<Worked, Error>) -> Error
    ensures { result ≡ mismatch_of worked }
{
    match worked {
        Ok(_) => Error::TypeMismatch,
        Err(error) => error,
    }
}

// How many bytes of text an answer has.
pub fn text_length(worked: Result<Worked, Error>) -> usize
    ensures { result ≡ text_length worked }
{
    match worked {
        Ok(Worked::Text(len, _)) => len,
        _ => 0,
    }
}

// Whether so many bytes can be asked for while others are live: 14 exactly when they exceed the space.
pub fn has_room(space: &[u8], live: Offset, asked: usize) -> bool
    ensures { result ≡ leb (live.0 + asked) (length space.now) }
{
    fits(space.len(), live, asked)
}
