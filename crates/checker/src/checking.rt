// A recipe passes, or the first faulty line decides.
ghost use Rattle.std.specs.Prelude.{◌≡◌};
ghost use Rattle.loader.specs.Lines.{lines_of};
ghost use Rattle.grammar.specs.Trees.{Part};
ghost use Rattle.statements.specs.Parts.{statements_of};
ghost use Rattle.reader.specs.Lines.{holds, judgement};
ghost use Rattle.checker.specs.Check.{missing, any_missing, fault_in, check_of};
ghost use Rattle.checker.specs.bridge.Answers.{names_of};
ghost use Rattle.checker.specs.declared.checking.Fault.TheVariants.{Refused};

use loader::{Refusal, RefusedAt, find_line, line_at, load};
use reader::{judge, next_statement};
use statements::{StatementRead, statement_at};
use whole::Error;
use words::{LineNumber, Place};

// Why a recipe does not pass: it is refused as in loading, and the place; or the first faulty line has an error.
#[derive(Clone, Copy)]
pub enum Fault {
    Refused(Refusal, Place),
    Faulty(Error, LineNumber),
}

impl From<RefusedAt> for Fault {
    ghost from_gives = { λ at fault. fault ≡ Refused at.refusal at.place };

    fn from(at: RefusedAt) -> Fault {
        Fault::Refused(at.refusal, at.place)
    }
}

// Whether a line that a statement names is missing.
fn is_missing(text: &[u8], names: Option<LineNumber>) -> bool
    ensures { result ≡ missing (lines_of text.now) names }
{
    let Some(number) = names else {
        return false;
    };
    find_line(text, number).is_none()
}

// The line that a statement by itself names, if it was read and names one.
pub fn named_by(read: Option<StatementRead>) -> Option<LineNumber>
    ensures { result ≡ names_of read }
{
    read?.own().names
}

// Whether any statement of a line names a line that is missing.
fn any_missing(text: &[u8], line: &[u8]) -> bool
    ensures { (part : Part) → judgement line.now ≡ holds part
        → result ≡ any_missing (lines_of text.now) (statements_of part) }
{
    let mut at = Place(0);
    loop {
        let read = statement_at(line, at, true);
        let names = named_by(read);
        if is_missing(text, names) {
            return true;
        }
        let Some(next) = next_statement(read) else {
            return false;
        };
        at = next;
    }
}

// In a line 2, then 16, then 13, then 8.
fn fault_in(text: &[u8], line: &[u8]) -> Result<(), Error>
    ensures { result ≡ fault_in (lines_of text.now) (judgement line.now) }
{
    let typed = judge(line)?;
    if !typed {
        return Err(Error::TypeMismatch);
    }
    if any_missing(text, line) {
        return Err(Error::UndefinedLine);
    }
    Ok(())
}

// It loads, then refuses for the first faulty line.
pub fn check_recipe(text: &[u8]) -> Result<(), Fault>
    ensures { result ≡ check_of text.now }
{
    load(text)?;
    let mut at = Place(0);
    loop {
        let Some(line) = line_at(text, at) else {
            return Ok(());
        };
        if let Err(error) = fault_in(text, &text[line.body.0..line.end.0]) {
            return Err(Fault::Faulty(error, line.number));
        }
        at = line.next;
    }
}
