// READ.
ghost use Rattle.std.specs.Prelude.{◌≡◌, List, ℕ, ◌≤◌, length};
ghost use Rattle.words.specs.Names.{name_bytes, telling_of};
ghost use Rattle.words.specs.Places.{longest_line};
ghost use Rattle.words.specs.declared.names.Kind.TheVariants as kind;
ghost use Rattle.grammar.specs.Trees as tree;
ghost use Rattle.grammar.specs.Trees.{Variable};
ghost use Rattle.grammar.specs.Formulas.{enough};
ghost use Rattle.statements.specs.Statements.{listed, names_at};
ghost use Rattle.variables.specs.bridge.Memory.{Storable};
ghost use Rattle.machine.specs.bridge.Holding.{state_of, position_of, Positioned, Fed, Settled, Sound};
ghost use Rattle.turns.specs.Steps.{given, next_item, do_statement};
ghost use Rattle.turns.specs.bridge.Turns.{turn_of, after_of, Turns, AnyRecords};
ghost use Rattle.feeding.specs.bridge.Taking.{Feedable};
ghost use Rattle.feeding.specs.bridge.Giving.{Listed, set_as, machine_of, Sets, Gives};

use crate::taking::take_item;
use grammar::is_symbol;
use machine::{Machine, Turned};
use scanner::token_at;
use space::copy_in;
use turns::{fails, goes_on, with_string};
use variables::{Tables, has_room};
use whole::{Error, number_item};
use words::{Kind, Name, Place, Scanned, Sign, Token};

// Room for a new variable is tested last.
fn set_or_full(machine: Machine, stored: Option<Machine>) -> Result<Machine, (Machine, Error)>
    ensures { result ≡ set_as machine stored }
{
    stored.ok_or((machine, Error::OutOfMemory))
}

// One optional sign and digits only.
fn give_number(
    line: &[u8],
    name: Name,
    bytes: &[u8],
    machine: Machine,
    tables: &mut Tables,
) -> Result<Machine, (Machine, Error)>
    ensures { ((text space : List ℕ) → Settled (state_of machine tables.old) space
        → Sets (state_of machine tables.old) space (state_of (machine_of result) tables.new) space
        × Gives text (state_of machine tables.old) space (given kind.Whole (telling_of (name_bytes line.now name)) bytes.now) result
        (state_of (machine_of result) tables.new) space)
        × ((machine_of result).feed ≡ machine.feed) }
{
    match number_item(bytes) {
        Err(error) => Err((machine, error)),
        Ok(word) => match tables.numbers.store(line, name, word) {
            None => Err((machine, Error::OutOfMemory)),
            Some(_) => Ok(machine),
        },
    }
}

// The item makes a string.
fn give_string(
    line: &[u8],
    name: Name,
    bytes: &[u8],
    machine: Machine,
    tables: &mut Tables,
    space: &mut [u8],
) -> Result<Machine, (Machine, Error)>
    requires { Storable tables.old.strings.lengths machine.used.0 space.old 0 × (length bytes.now ≤ longest_line) }
    ensures { ((text : List ℕ) → Settled (state_of machine tables.old) space.old
        → Sets (state_of machine tables.old) space.old (state_of (machine_of result) tables.new) space.new
        × Gives text (state_of machine tables.old) space.old (given kind.Text (telling_of (name_bytes line.now name)) bytes.now) result
        (state_of (machine_of result) tables.new) space.new)
        × ((machine_of result).feed ≡ machine.feed) }
{
    let used = machine.used;
    let len = bytes.len();
    if !has_room(space, used, len) {
        return Err((machine, Error::OutOfStringSpace));
    }
    copy_in(space, used, bytes);
    set_or_full(
        machine,
        with_string(machine, tables, line, name, space, len),
    )
}

// The next item is taken, and a variable set to it; past the last is 4.
fn give(
    text: &[u8],
    line: &[u8],
    name: Name,
    machine: Machine,
    tables: &mut Tables,
    space: &mut [u8],
) -> Result<Machine, (Machine, Error)>
    requires { Feedable text.now machine.feed × Settled (state_of machine tables.old) space.old }
    ensures { Sets (state_of machine tables.old) space.old
        (state_of (machine_of result) tables.new) space.new
        × (Fed text.now (machine_of result).feed
        × Gives text.now (state_of machine tables.old) space.old
        (λ n go. next_item n.items n (λ b o. given name.kind (telling_of (name_bytes line.now name)) b o go)) result
        (state_of (machine_of result) tables.new) space.new) }
{
    match take_item(text, machine.feed) {
        None => Err((machine, Error::OutOfData)),
        Some((from, len, feed)) => {
            let mut m = machine;
            m.feed = feed;
            let start = from.0;
            let end = start + len;
            let bytes = &text[start..end];
            let kind = name.kind;
            match kind {
                Kind::Whole => give_number(line, name, bytes, m, tables),
                Kind::Text => give_string(line, name, bytes, m, tables, space),
            }
        }
    }
}

// From the first variable on.
pub fn read(
    text: &[u8],
    line: &[u8],
    here: Place,
    first: Scanned,
    machine: Machine,
    tables: &mut Tables,
    space: &mut [u8],
) -> Turned
    requires { Listed line.now first
        × (Feedable text.now machine.feed
        × Settled (state_of machine tables.old) space.old) }
    ensures { (input room : List ℕ) (at : ℕ) (vs : List Variable) (u : Scanned)
        → Sound (state_of machine tables.old) input space.old room
        → Positioned text.now (after_of here u) → names_at (enough line.now) line.now first ≡ listed vs u
        → Turns text.now (state_of machine tables.old) input space.old room AnyRecords
        (λ n. do_statement text.now at (tree.read vs) n (position_of text.now (after_of here u)))
        (turn_of result tables.new) space.new room }
{
    let mut m = machine;
    let mut target = first;
    loop {
        let token = target.token;
        let Token::Named(name) = token else {
            return fails(m, Error::Syntax);
        };
        match give(text, line, name, m, tables, space) {
            Err((failed, error)) => return fails(failed, error),
            Ok(next) => {
                m = next;
                let ahead = token_at(line, target.next);
                let sign = ahead.token;
                if !is_symbol(Sign::Comma, sign) {
                    return goes_on(m, here, ahead);
                }
                target = token_at(line, ahead.next);
            }
        }
    }
}
