// Assignment.
ghost use Rattle.std.specs.Prelude.{◌≡◌, List, ℕ, ◌≤◌, length, Option};
ghost use Rattle.variables.specs.bridge.Memory.{space_stored, Storable};
ghost use Rattle.grammar.specs.Trees.{Formula, assign};
ghost use Rattle.grammar.specs.Formulas.{good, formula_of};
ghost use Rattle.words.specs.declared.symbols.Word.TheVariants as led;
ghost use Rattle.statements.specs.Statements.{variable_of, by_word};
ghost use Rattle.machine.specs.bridge.Holding.{state_of, position_of, Positioned, Settled, Sound};
ghost use Rattle.turns.specs.Steps.{do_statement};
ghost use Rattle.turns.specs.bridge.Doing.{Begins, Does};
ghost use Rattle.turns.specs.bridge.Turns.{turn_of, storage_of, after_of, Turns, AnyRecords, Formed, string_set, stored_as};
ghost use Rattle.whole.specs.Texts.{longest_string};
ghost use Rattle.words.specs.Names.{name_bytes, telling_of};
ghost use Rattle.words.specs.Places.{longest_line};

use crate::turning::{fails, goes_on, value};
use machine::{Machine, Record, Turned};
use scanner::token_at;
use variables::{Tables, Worked};
use whole::Error;
use words::{Kind, Name, Place, Scanned, Token};

// The machine after a string is assigned; without room for a new variable all stays as it was. The finished text of `len` bytes stands right
// after the variables' bytes.
pub fn with_string(
    machine: Machine,
    tables: &mut Tables,
    line: &[u8],
    name: Name,
    space: &mut [u8],
    len: usize,
) -> Option<Machine>
    requires { Storable tables.old.strings.lengths machine.used.0 space.old len × (len ≤ longest_string) }
    ensures { (storage_of machine result tables.new
        ≡ string_set (state_of machine tables.old) (telling_of (name_bytes line.now name)) len)
        × (space.new ≡ space_stored tables.old.strings machine.used.0 (telling_of (name_bytes line.now name)) space.old len) }
{
    let used = machine.used;
    let end = tables.strings.store(used, line, name, space, len as u8)?;
    let mut next = machine;
    next.used = end;
    Some(next)
}

// Room for a new variable is tested last.
pub fn stored_or_full(
    machine: Machine,
    stored: Option<Machine>,
    line: Place,
    ahead: Scanned,
) -> Turned
    ensures { result ≡ stored_as machine stored line ahead }
{
    let Some(next) = stored else {
        return fails(machine, Error::OutOfMemory);
    };
    goes_on(next, line, ahead)
}

// The variable's name, and the formula from its first token on; the type is tested after the formula.
fn assign(
    line: &[u8],
    here: Place,
    name: Name,
    first: Scanned,
    machine: Machine,
    tables: &mut Tables,
    space: &mut [u8],
) -> Turned
    requires { Formed line.now first
        × Settled (state_of machine tables.old) space.old }
    ensures { (text input room : List ℕ) (at : ℕ) (f : Formula) (u : Scanned)
        → Sound (state_of machine tables.old) input space.old room
        → Positioned text (after_of here u)
        → formula_of line.now first ≡ good f u
        → Turns text (state_of machine tables.old) input space.old room AnyRecords
        (λ n. do_statement text at (assign (variable_of line.now name) f) n (position_of text (after_of here u)))
        (turn_of result tables.new) space.new room }
{
    let kind = name.kind;
    match value(line, first, machine, tables, space) {
        Err(error) => fails(machine, error),
        Ok(Worked::Whole(word, ahead)) => match kind {
            Kind::Text => fails(machine, Error::TypeMismatch),
            Kind::Whole => match tables.numbers.store(line, name, word) {
                None => fails(machine, Error::OutOfMemory),
                Some(_) => goes_on(machine, here, ahead),
            },
        },
        Ok(Worked::Text(len, ahead)) => match kind {
            Kind::Whole => fails(machine, Error::TypeMismatch),
            Kind::Text => stored_or_full(
                machine,
                with_string(machine, tables, line, name, space, len),
                here,
                ahead,
            ),
        },
    }
}

// A name, the equals sign and a formula.
pub fn set(
    line: &[u8],
    here: Place,
    target: Scanned,
    machine: Machine,
    tables: &mut Tables,
    space: &mut [u8],
) -> Turned
    requires { Begins (by_word line.now led.Let target)
        × ((length line.now ≤ longest_line)
        × Settled (state_of machine tables.old) space.old) }
    ensures { (text input room : List ℕ) (at : ℕ) (found : Option ℕ) (entry : Record)
        → Sound (state_of machine tables.old) input space.old room
        → Does text line.now here at (state_of machine tables.old) found entry input space.old room
        (turn_of result tables.new) space.new room (by_word line.now led.Let target) }
{
    let token = target.token;
    let equals = token_at(line, target.next);
    match token {
        Token::Named(name) => assign(
            line,
            here,
            name,
            token_at(line, equals.next),
            machine,
            tables,
            space,
        ),
        _ => fails(machine, Error::Syntax),
    }
}
