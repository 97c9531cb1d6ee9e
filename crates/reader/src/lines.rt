// The judgement of a line.
ghost use Rattle.std.specs.Prelude.{◌≡◌};
ghost use Rattle.reader.specs.Lines.{judged_of};
ghost use Rattle.reader.specs.bridge.Walking.{error_of, verdict_of, with_own};

use crate::walking::{Onward, Walk, walk_on};
use expressions::FormulaRead;
use statements::{Own, statement_at};
use whole::Error;
use words::Place;

// Why a line holds no part: it does not read, or it is nested too deep.
#[derive(Clone, Copy)]
pub enum LineFault {
    Unreadable,
    TooDeep,
}

impl From<LineFault> for Error {
    ghost from_gives = { λ fault error. error ≡ error_of fault };

    fn from(fault: LineFault) -> Error {
        match fault {
            LineFault::Unreadable => Error::Syntax,
            LineFault::TooDeep => Error::FormulaTooComplex,
        }
    }
}

// What is known of the statements so far: how deep they nest, and whether their types are right.
#[derive(Clone, Copy)]
pub struct Tally {
    pub deepest: u8,
    pub typed: bool,
}

impl Tally {
    // One statement more.
    fn with(self, own: Own) -> Tally
        ensures { result ≡ with_own self own }
    {
        Tally {
            deepest: self.deepest.max(own.deepest),
            typed: self.typed && own.typed,
        }
    }

    fn verdict(self) -> Result<bool, LineFault>
        ensures { result ≡ verdict_of self }
    {
        if FormulaRead::DEEPEST < self.deepest {
            return Err(LineFault::TooDeep);
        }
        Ok(self.typed)
    }
}

// The bytes of a line after its number, judged whole: of a line that reads, whether all its types are right.
pub fn judge(line: &[u8]) -> Result<bool, LineFault>
    ensures { result ≡ judged_of line.now }
{
    let mut walk = Walk {
        at: Place(0),
        first: false,
        waiting: 0,
    };
    let mut tally = Tally {
        deepest: 0,
        typed: true,
    };
    loop {
        let read = statement_at(line, walk.at, walk.first).ok_or(LineFault::Unreadable)?;
        tally = tally.with(read.own());
        match walk_on(walk.waiting, read).ok_or(LineFault::Unreadable)? {
            Onward::Statement(next) => walk = next,
            Onward::End => return tally.verdict(),
            Onward::Else(_) => return Err(LineFault::Unreadable),
        }
    }
}
