// The operators on whole numbers. A word is taken to its number, worked on as a wider one, and taken back where it fits.
ghost use Rattle.std.specs.Prelude.{◌≡◌};
ghost use Rattle.std.specs.Int.Signed.{quot_z, rem_z};
ghost use Rattle.whole.specs.Whole.{num, fit, say, applied, negated, magnitude, signum, flipped};
ghost use Rattle.whole.specs.bridge.Wide.{back, Divides};

use crate::errors::Error;

// The operators with two sides, in the order of the paper's list.
#[derive(Clone, Copy, PartialEq, Eq)]
pub enum Operator {
    Multiply,
    Divide,
    Modulo,
    Add,
    Subtract,
    Equal,
    Unequal,
    Less,
    Greater,
    AtMost,
    AtLeast,
    And,
    Or,
    Xor,
    Eqv,
    Imp,
}

// The number that a word holds.
fn number(word: u16) -> i32
    ensures { result ≡ num word }
{
    i32::from(word.cast_signed())
}

// A result outside -32768 to 32767 is overflow.
#[tactic(auto, using(crate::proofs::Sizes::fitted_out, crate::proofs::Sizes::fitted_in))]
fn fitted(z: i32) -> Result<u16, Error>
    ensures { result ≡ fit z }
{
    let Ok(number) = i16::try_from(z) else {
        return Err(Error::Overflow);
    };
    Ok(number.cast_unsigned())
}

// Comparisons give -1 or 0.
pub fn truth(holds: bool) -> Result<u16, Error>
    ensures { result ≡ say holds }
{
    if holds { Ok(65535) } else { Ok(0) }
}

// Cut toward zero.
fn quotient(x: i32, y: i32) -> i32
    requires { Divides x y }
    ensures { result ≡ back (quot_z (back x) (back y)) }
{
    x / y
}

// With the sign of the left side.
fn rest(x: i32, y: i32) -> i32
    requires { Divides x y }
    ensures { result ≡ back (rem_z (back x) (back y)) }
{
    x % y
}

// The answer of an operator at its left and right sides.
pub fn apply(operator: Operator, left: u16, right: u16) -> Result<u16, Error>
    ensures { result ≡ applied operator left right }
{
    let x = number(left);
    let y = number(right);
    match operator {
        Operator::Multiply => fitted(x * y),
        Operator::Divide => if right == 0 {
            Err(Error::DivisionByZero)
        } else {
            fitted(quotient(x, y))
        },
        Operator::Modulo => if right == 0 {
            Err(Error::DivisionByZero)
        } else {
            fitted(rest(x, y))
        },
        Operator::Add => fitted(x + y),
        Operator::Subtract => fitted(x - y),
        Operator::Equal => truth(left == right),
        Operator::Unequal => truth(left != right),
        Operator::Less => truth(x < y),
        Operator::Greater => truth(y < x),
        Operator::AtMost => truth(x <= y),
        Operator::AtLeast => truth(y <= x),
        Operator::And => Ok(left & right),
        Operator::Or => Ok(left | right),
        Operator::Xor => Ok(left ^ right),
        Operator::Eqv => Ok(!(left ^ right)),
        Operator::Imp => Ok(!left | right),
    }
}

// The minus sign before an operand.
pub fn negative(word: u16) -> Result<u16, Error>
    ensures { result ≡ negated word }
{
    fitted(-number(word))
}

// NOT, on the 16 bits.
pub fn complement(word: u16) -> u16
    ensures { result ≡ flipped word }
{
    !word
}

// ABS.
pub fn absolute(word: u16) -> Result<u16, Error>
    ensures { result ≡ magnitude word }
{
    fitted(number(word).abs())
}

// SGN.
pub fn sign(word: u16) -> u16
    ensures { result ≡ signum word }
{
    word.cast_signed().signum().cast_unsigned()
}
