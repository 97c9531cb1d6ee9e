// What is refused before anything is done, in the order of the paper's table.
ghost use Rattle.std.specs.Prelude.{◌≡◌};
ghost use Rattle.loader.specs.Refusals.{refusal_number};

use words::Place;

#[derive(Clone, Copy)]
pub enum Refusal {
    NoVariable = 111,
    SpaceTooLong = 106,
    StackTooLong = 107,
    TextTooLong = 100,
    LineTooLong = 103,
    ForeignByte = 104,
    BadNumber = 101,
    NotRising = 102,
    TooManyLines = 105,
    ShortGroup = 108,
    TooManyPairs = 109,
    NoRoom = 110,
}

// Why something is refused, and the place.
#[derive(Clone, Copy)]
pub struct RefusedAt {
    pub refusal: Refusal,
    pub place: Place,
}

impl From<Refusal> for u8 {
    ghost from_gives = { λ refusal number. number ≡ refusal_number refusal };

    fn from(refusal: Refusal) -> u8 {
        refusal as u8
    }
}

// The number that the paper gives a refusal.
pub fn refusal_number(refusal: Refusal) -> u8
    ensures { result ≡ refusal_number refusal }
{
    u8::from(refusal)
}
