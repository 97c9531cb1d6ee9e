// The evaluators of formulas, operands and argument lists, which call each other in a cycle over a line that reads: at each call the
// bytes that remain are fewer, and inside each pair of parentheses the pairs that may still nest. Each takes the token that it begins
// with and hands on the one that follows.
ghost use Rattle.std.specs.Prelude.{◌≡◌, ℕ, ◌+◌, eqb};
ghost use Rattle.grammar.specs.Trees.{Formula, none, Arguments, call};
ghost use Rattle.grammar.specs.Formulas.{good, formula_of};
ghost use Rattle.expressions.specs.Types.{deepest_nesting};
ghost use Rattle.skimming.specs.bridge.Remaining.{formula_in, operand_of, arguments_of};
ghost use Rattle.formulas.specs.bridge.Memory.{Scans, Reads, OperandReads, Ready, Evaluated};
ghost use Rattle.words.specs.declared.symbols.Function.TheVariants.{Instr};
ghost use Rattle.grammar.specs.Formulas as formulas;

use crate::operands::{closed, complemented, named, negated, quoted};
use expressions::{FormulaRead, past_nots};
use functions::{Taken, called, take_argument};
use grammar::{LOOSEST, NOT_LEVEL, is_symbol, right_level};
use operators::{joined, turn_of};
use scanner::token_at;
use skimming::skim;
use space::Offset;
use strings::{Given, given_length};
use variables::{Tables, Worked, text_length};
use whole::Error;
use words::{Function, Scanned, Sign, Token};

// The formula of a level: an operand, and as long as an operator of that level or a tighter one follows, what it makes of both sides.
#[cycle(arguments_formula_operand)]
fn formula(
    line: &[u8],
    ahead: Scanned,
    level: u8,
    room: u8,
    tables: &Tables,
    space: &mut [u8],
    used: Offset,
) -> Result<Worked, Error>
    requires { Ready line.now tables.now.strings.lengths space.old used.0 × (Scans line.now ahead × Reads room (formula_in line.now level ahead)) }
    ensures { (f : Formula) (u : Scanned) → formula_in line.now level ahead ≡ good f u
        → Evaluated tables.now f u space.old used.0 result space.new }
{
    let mut left = operand(line, ahead, room, tables, space, used);
    while let Some((operator, next)) = turn_of(level, left)? {
        let first = token_at(line, next);
        let right = formula(
            line,
            first,
            right_level(operator),
            room,
            tables,
            space,
            Offset(used.0 + text_length(left)),
        );
        left = joined(operator, left, right, space, used);
    }
    left
}

// Parentheses, names, numbers, texts and functions, one minus sign before such, or NOT.
#[cycle(arguments_formula_operand)]
fn operand(
    line: &[u8],
    ahead: Scanned,
    room: u8,
    tables: &Tables,
    space: &mut [u8],
    used: Offset,
) -> Result<Worked, Error>
    requires { Ready line.now tables.now.strings.lengths space.old used.0 × (Scans line.now ahead × OperandReads room line.now ahead) }
    ensures { (level : ℕ) (f : Formula) (u : Scanned) → operand_of line.now level ahead ≡ good f u
        → Evaluated tables.now f u space.old used.0 result space.new }
{
    let token = ahead.token;
    let next = ahead.next;
    let after = token_at(line, next);
    match token {
        Token::Number(word) => Ok(Worked::Whole(word, after)),
        Token::Hexadecimal(word) => Ok(Worked::Whole(word, after)),
        Token::Named(name) => named(line, name, after, tables, space, used),
        Token::Quoted(quotation) => quoted(line, quotation, after, space, used),
        Token::Symbol(sign) => match sign {
            Sign::Open => closed(
                line,
                formula(line, after, LOOSEST, room - 1, tables, space, used),
            ),
            Sign::Minus => negated(operand(line, after, room, tables, space, used)),
            _ => Err(Error::Syntax),
        },
        Token::Not => {
            let nots = past_nots(line, ahead);
            let behind = nots.ahead;
            let worked = formula(line, behind, NOT_LEVEL, room, tables, space, used);
            complemented(worked, nots.odd)
        }
        Token::Call(function) => {
            let next = after.next;
            let first = token_at(line, next);
            arguments(line, first, function, room - 1, tables, space, used)
        }
        _ => Err(Error::Syntax),
    }
}

// Whether a third argument follows the first two.
fn has_third(line: &[u8], ahead: Scanned) -> bool
    ensures { (a : Arguments) (u : Scanned) → arguments_of line.now Instr none (formula_in line.now 0 ahead) ≡ good (call Instr a) u
        → result ≡ eqb (formulas.count_of a) 3 }
{
    let Some(comma) = skim(line, ahead) else {
        return false;
    };
    let second = token_at(line, comma.next);
    let Some(follow) = skim(line, second) else {
        return false;
    };
    let token = follow.token;
    is_symbol(Sign::Comma, token)
}

// INSTR alone wants of its first argument what goes by how many there are.
fn is_of_three(line: &[u8], ahead: Scanned, function: Function) -> bool
    ensures { (a : Arguments) (u : Scanned) → function ≡ Instr
        → arguments_of line.now Instr none (formula_in line.now 0 ahead) ≡ good (call Instr a) u
        → result ≡ eqb (formulas.count_of a) 3 }
{
    match function {
        Function::Instr => has_third(line, ahead),
        _ => false,
    }
}

// A function from its first argument on: each is tested as soon as it is worked out.
#[cycle(arguments_formula_operand)]
fn arguments(
    line: &[u8],
    ahead: Scanned,
    function: Function,
    room: u8,
    tables: &Tables,
    space: &mut [u8],
    used: Offset,
) -> Result<Worked, Error>
    requires { Ready line.now tables.now.strings.lengths space.old used.0 × (Scans line.now ahead × Reads (room + 1) (arguments_of line.now function none (formula_in line.now 0 ahead))) }
    ensures { (f : Formula) (u : Scanned) → arguments_of line.now function none (formula_in line.now 0 ahead) ≡ good f u
        → Evaluated tables.now f u space.old used.0 result space.new }
{
    let three = is_of_three(line, ahead, function);
    let mut given = Given::None;
    let mut here = ahead;
    loop {
        let worked = formula(
            line,
            here,
            LOOSEST,
            room,
            tables,
            space,
            Offset(used.0 + given_length(given)),
        );
        match take_argument(function, three, given, worked)? {
            Taken::All(all, next) => {
                let after = token_at(line, next);
                return called(function, space, used, all, after);
            }
            Taken::More(all, next) => {
                given = all;
                here = token_at(line, next);
            }
        }
    }
}

// The value of the formula that begins with a token; live bytes are those below `used`.
pub fn work_out(
    line: &[u8],
    ahead: Scanned,
    tables: &Tables,
    space: &mut [u8],
    used: Offset,
) -> Result<Worked, Error>
    requires { Ready line.now tables.now.strings.lengths space.old used.0 × (Scans line.now ahead × Reads deepest_nesting (formula_of line.now ahead)) }
    ensures { (f : Formula) (u : Scanned) → formula_of line.now ahead ≡ good f u
        → Evaluated tables.now f u space.old used.0 result space.new }
{
    formula(
        line,
        ahead,
        LOOSEST,
        FormulaRead::DEEPEST,
        tables,
        space,
        used,
    )
}
