// Operands that are no formulas of their own, and what is made of those that are.
ghost use Rattle.std.specs.Prelude.{◌≡◌, false, ℕ, ◌+◌, ◌≤◌, length};
ghost use Rattle.whole.specs.Whole.{negated};
ghost use Rattle.words.specs.Names.{name_bytes, telling_of};
ghost use Rattle.words.specs.Places.{longest_line};
ghost use Rattle.grammar.specs.Formulas.{quoted_bytes};
ghost use Rattle.expressions.specs.bridge.Nots.{turned};
ghost use Rattle.variables.specs.Strings.{make};
ghost use Rattle.variables.specs.Variables.{Variables, most_variables};
ghost use Rattle.operators.specs.Values.{variable_value};
ghost use Rattle.variables.specs.bridge.Memory.{word_at, bytes_at, SlotBelow, answered_as, Looked, Made};
ghost use Rattle.variables.specs.Tables.{sum_of};
ghost use Rattle.formulas.specs.bridge.Memory.{whole_as, flipped_by, closed_as, Ready};
ghost use Rattle.variables.specs.declared.values.Worked.TheVariants as worked;

use scanner::token_at;
use space::{Offset, copy_in, move_bytes};
use variables::{Numbers, Strings, Tables, Worked, answered, has_room, offset_of, slot_of};
use whole::{Error, complement, negative};
use words::{Kind, Name, Quotation, Scanned};

// A quoted text is copied from the line.
pub(crate) fn quoted(
    line: &[u8],
    quotation: Quotation,
    ahead: Scanned,
    space: &mut [u8],
    used: Offset,
) -> Result<Worked, Error>
    requires { (quotation.at + quotation.len ≤ length line.now) × ((length line.now ≤ longest_line) × (used.0 ≤ length space.old)) }
    ensures { Made space.old used.0 used.0 (make (quoted_bytes line.now quotation)) ahead result space.new }
{
    let from = quotation.at as usize;
    let len = quotation.len as usize;
    if !has_room(space, used, len) {
        return Err(Error::OutOfStringSpace);
    }
    let end = from + len;
    copy_in(space, used, &line[from..end]);
    Ok(Worked::Text(len, ahead))
}

// A string variable is copied from its place among the variables.
fn copied(
    slot: Option<usize>,
    strings: &Strings,
    ahead: Scanned,
    space: &mut [u8],
    used: Offset,
) -> Result<Worked, Error>
    requires { SlotBelow most_variables slot × ((sum_of strings.now.lengths ≤ used.0) × (used.0 ≤ length space.old)) }
    ensures { Made space.old used.0 used.0 (make (bytes_at slot strings.now.lengths space.old)) ahead result space.new }
{
    match slot {
        None => Ok(Worked::Text(0, ahead)),
        Some(i) => {
            let len = usize::from(strings.lengths[i]);
            if !has_room(space, used, len) {
                return Err(Error::OutOfStringSpace);
            }
            let from = offset_of(&strings.lengths, i);
            move_bytes(space, from, used, len);
            Ok(Worked::Text(len, ahead))
        }
    }
}

fn number_in(slot: Option<usize>, numbers: &Numbers) -> u16
    requires { SlotBelow most_variables slot }
    ensures { result ≡ word_at slot numbers.now.words }
{
    match slot {
        None => 0,
        Some(i) => numbers.words[i],
    }
}

// A variable, by its name.
pub(crate) fn named(
    line: &[u8],
    name: Name,
    ahead: Scanned,
    tables: &Tables,
    space: &mut [u8],
    used: Offset,
) -> Result<Worked, Error>
    requires { Ready line.now tables.now.strings.lengths space.old used.0 }
    ensures { (vars : Variables) → Looked vars tables.now space.old
        → Made space.old used.0 used.0 (variable_value name.kind (telling_of (name_bytes line.now name)) vars) ahead result space.new }
{
    let numbers = &tables.numbers;
    let strings = &tables.strings;
    match name.kind {
        Kind::Whole => Ok(Worked::Whole(
            number_in(slot_of(&numbers.names, line, name), numbers),
            ahead,
        )),
        Kind::Text => copied(
            slot_of(&strings.names, line, name),
            strings,
            ahead,
            space,
            used,
        ),
    }
}

// The parenthesis that closes is passed over.
pub(crate) fn closed(line: &[u8], worked: Result<Worked, Error>) -> Result<Worked, Error>
    ensures { result ≡ closed_as line.now worked }
{
    Ok(match worked? {
        Worked::Whole(word, ahead) => Worked::Whole(word, token_at(line, ahead.next)),
        Worked::Text(len, ahead) => Worked::Text(len, token_at(line, ahead.next)),
    })
}

// The minus sign before an operand.
pub(crate) fn negated(operand: Result<Worked, Error>) -> Result<Worked, Error>
    ensures { result ≡ whole_as operand (λ w t. answered_as (negated w) t) }
{
    let Worked::Whole(word, ahead) = operand? else {
        return Err(Error::TypeMismatch);
    };
    answered(negative(word), ahead)
}

// NOT so many times on the 16 bits: twice is nothing.
fn turned(word: u16, odd: bool) -> u16
    ensures { (n : ℕ) → odd ≡ turned n false → result ≡ flipped_by n word }
{
    if odd { complement(word) } else { word }
}

// A chain of NOT before a formula.
pub(crate) fn complemented(formula: Result<Worked, Error>, odd: bool) -> Result<Worked, Error>
    ensures { (n : ℕ) → odd ≡ turned n false → result ≡ whole_as formula (λ w t. Ok (worked.Whole (flipped_by n w) t)) }
{
    let Worked::Whole(word, ahead) = formula? else {
        return Err(Error::TypeMismatch);
    };
    Ok(Worked::Whole(turned(word, odd), ahead))
}
