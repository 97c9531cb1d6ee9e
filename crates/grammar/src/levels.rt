// The levels of operators, loosest first: how tight each binds, and where it may stand.
ghost use Rattle.std.specs.Prelude.{◌≡◌};
ghost use Rattle.grammar.specs.Formulas.{level_of, right_level, minus_stands, not_stands};

use whole::Operator;

// The loosest level, which lets every operator stand; NOT's and the minus sign's; and that of what has no operator outside.
pub const LOOSEST: u8 = 0;

pub const NOT_LEVEL: u8 = 5;

const MINUS_LEVEL: u8 = 11;

pub const TIGHTEST: u8 = 12;

// How tight an operator binds, loosest first.
pub fn level_of(operator: Operator) -> u8
    ensures { result ≡ level_of operator }
{
    match operator {
        Operator::Imp => 0,
        Operator::Eqv => 1,
        Operator::Xor => 2,
        Operator::Or => 3,
        Operator::And => 4,
        Operator::Equal => 6,
        Operator::Unequal => 6,
        Operator::Less => 6,
        Operator::Greater => 6,
        Operator::AtMost => 6,
        Operator::AtLeast => 6,
        Operator::Add => 7,
        Operator::Subtract => 7,
        Operator::Modulo => 8,
        Operator::Divide => 9,
        Operator::Multiply => 10,
    }
}

// Operators of one level group to the left, so what stands on the right is of the next tighter level.
pub fn right_level(operator: Operator) -> u8
    ensures { result ≡ right_level operator }
{
    level_of(operator) + 1
}

// One minus sign may stand before what has no operator outside: none stands behind another.
pub fn minus_stands(level: u8) -> bool
    ensures { result ≡ minus_stands level }
{
    level <= MINUS_LEVEL
}

// NOT stands only where an operand of AND or a looser operator may.
pub fn not_stands(level: u8) -> bool
    ensures { result ≡ not_stands level }
{
    level <= NOT_LEVEL
}
