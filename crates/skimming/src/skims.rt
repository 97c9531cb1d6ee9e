// The flat reader: a loop over the tokens of a formula, with a mark for each parenthesis that is open.
ghost use Rattle.std.specs.Prelude.{◌≡◌, List, ◌≤◌};
ghost use Rattle.grammar.specs.Formulas.{enough, formula_of};
ghost use Rattle.skimming.specs.bridge.Flat.{skimmed_of, Opened, want_at};
ghost use Rattle.skimming.specs.bridge.Marks.{First, top_of, first_depth};

use crate::marks::NOTHING;
use crate::stepping::{Phase, Step, next_step};
use grammar::LOOSEST;
use words::Scanned;

// As many parentheses as a line can open.
const ROOM: usize = 255;

// The mark of what was opened last.
fn top_of(marks: &[u8; ROOM], depth: usize) -> u8
    requires { depth ≤ 255 }
    ensures { result ≡ top_of marks.now depth }
{
    if depth == 0 {
        return NOTHING;
    }
    marks[depth - 1]
}

fn first_depth(mark: u8) -> usize
    ensures { result ≡ first_depth mark }
{
    usize::from(mark != NOTHING)
}

// Skims from a token on, with one parenthesis open or none. It calls itself only where the marks are full, which they never are on a
// line of at most 255 bytes (`NeverFull`).
fn skim_from(line: &[u8], ahead: Scanned, mark: u8) -> Option<Scanned>
    ensures { (os : List Opened) → First mark os
        → result ≡ want_at (enough line.now) line.now os 0 ahead.token ahead.next }
{
    let mut marks = [mark; ROOM];
    let mut depth = first_depth(mark);
    let mut here = ahead;
    let mut phase = Phase::Wants(LOOSEST);
    loop {
        let top = top_of(&marks, depth);
        match next_step(line, here, phase, top) {
            Step::Refused => return None,
            Step::Ends => return Some(here),
            Step::Wants { ahead, level } => {
                here = ahead;
                phase = Phase::Wants(level);
            }
            Step::Has { ahead } => {
                here = ahead;
                phase = Phase::Has;
            }
            Step::Closes { ahead } => {
                depth -= 1;
                here = ahead;
                phase = Phase::Has;
            }
            Step::Renews { ahead, mark } => {
                marks[depth - 1] = mark;
                here = ahead;
                phase = Phase::Wants(LOOSEST);
            }
            Step::Opens { ahead, mark } => {
                if depth < ROOM {
                    marks[depth] = mark;
                    depth += 1;
                    here = ahead;
                    phase = Phase::Wants(LOOSEST);
                } else {
                    here = skim_from(line, ahead, mark)?;
                    phase = Phase::Has;
                }
            }
        }
    }
}

// The formula that begins with a token of a line.
pub fn skim(line: &[u8], ahead: Scanned) -> Option<Scanned>
    ensures { result ≡ skimmed_of (formula_of line.now ahead) }
{
    skim_from(line, ahead, NOTHING)
}
