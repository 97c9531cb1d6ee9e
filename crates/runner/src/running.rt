// How a run comes out, and what is tested before it.
ghost use Rattle.std.specs.Prelude.{◌≡◌};
ghost use Rattle.loader.specs.Loading.{load_of};
ghost use Rattle.runner.specs.Run.{is_refused};
ghost use Rattle.runner.specs.bridge.Endings.{refused_as, admitted};

use loader::{Refusal, RefusedAt, load};
use machine::Machine;
use stack::is_too_long;
use variables::Tables;
use whole::Error;
use words::{LineNumber, Place};

#[derive(Clone, Copy)]
pub enum Outcome {
    Ended,
    Stopped(LineNumber),
    Out(LineNumber),
    Failed(Error, LineNumber),
    Refused(Refusal, Place),
}

#[derive(Clone, Copy)]
pub struct Ran {
    pub outcome: Outcome,
    pub steps: u32,
    pub written: usize,
    pub taken: usize,
    pub tables: Tables,
}

// What the loop comes to; the tables are lent beside it.
#[derive(Clone, Copy)]
pub struct Done {
    pub outcome: Outcome,
    pub steps: u32,
    pub written: usize,
    pub taken: usize,
}

// Whether a run was refused.
pub fn is_refused(outcome: Outcome) -> bool
    ensures { result ≡ is_refused outcome }
{
    matches!(outcome, Outcome::Refused(_, _))
}

// What is tested before a run, or why it is refused: 106, then 107, before 100 and the lines.
pub(crate) fn admits(text: &[u8], space: usize, records: usize) -> Result<(), RefusedAt>
    ensures { result ≡ admitted space records (load_of text.now) }
{
    if Machine::LONGEST_SPACE < space {
        return Err(RefusedAt {
            refusal: Refusal::SpaceTooLong,
            place: Place(0),
        });
    }
    if is_too_long(records) {
        return Err(RefusedAt {
            refusal: Refusal::StackTooLong,
            place: Place(0),
        });
    }
    load(text)
}

// What a refused run answers: it changes nothing.
pub(crate) fn refused(at: RefusedAt) -> Done
    ensures { result ≡ refused_as at.refusal at.place }
{
    Done {
        outcome: Outcome::Refused(at.refusal, at.place),
        steps: 0,
        written: 0,
        taken: 0,
    }
}
