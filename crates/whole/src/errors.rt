// The errors that end a run, each by the name that GW-BASIC gives its number; `OutputFull` is the house's.
ghost use Rattle.std.specs.Prelude.{◌≡◌};
ghost use Rattle.whole.specs.Errors.{error_number};

#[derive(Clone, Copy, PartialEq, Eq)]
pub enum Error {
    NextWithoutFor = 1,
    Syntax = 2,
    ReturnWithoutGosub = 3,
    OutOfData = 4,
    IllegalFunctionCall = 5,
    Overflow = 6,
    OutOfMemory = 7,
    UndefinedLine = 8,
    DivisionByZero = 11,
    TypeMismatch = 13,
    OutOfStringSpace = 14,
    StringTooLong = 15,
    FormulaTooComplex = 16,
    LineBufferOverflow = 23,
    ForWithoutNext = 26,
    WhileWithoutWend = 29,
    WendWithoutWhile = 30,
    InputPastEnd = 62,
    OutputFull = 110,
}

impl From<Error> for u8 {
    ghost from_gives = { λ error number. number ≡ error_number error };

    fn from(error: Error) -> u8 {
        error as u8
    }
}

// The number that the paper gives an error.
pub fn number_of(error: Error) -> u8
    ensures { result ≡ error_number error }
{
    u8::from(error)
}
