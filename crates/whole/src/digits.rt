// Digits read to a value, VAL, and the number of an item of DATA.
ghost use Rattle.std.specs.Prelude.{◌≡◌, ℕ, ◌+◌, ◌*◌, ◌≤◌, length, drop, pos, neg_ℤ};
ghost use Rattle.whole.specs.Digits.{is_digit, leading_value, capped, digits_of, blanks_of, val_of, sign_length, digits_only, number_item};
ghost use Rattle.whole.specs.Whole.{fit};

use crate::errors::Error;

// The digits that bytes begin with: how many, and their value.
#[derive(Clone, Copy)]
pub struct Digits {
    pub count: usize,
    pub magnitude: Option<u16>,
}

// A byte of 0 to 9.
#[tactic(auto, unfolding(crate::specs::Digits::is_digit))]
pub fn is_digit(byte: u8) -> bool
    ensures { result ≡ is_digit byte }
{
    byte.is_ascii_digit()
}

// The value with one digit more after it: what is too large stays so.
fn with_digit(magnitude: Option<u16>, digit: u8) -> Option<u16>
    ensures { (n : ℕ) → magnitude ≡ capped n → result ≡ capped (n * 10 + digit) }
{
    magnitude?.checked_mul(10)?.checked_add(u16::from(digit))
}

// All digits up to the first byte that is none.
pub fn leading_digits(bytes: &[u8]) -> Digits
    ensures { result ≡ digits_of bytes.now }
{
    let mut magnitude = Some(0);
    for (count, byte) in bytes.iter().enumerate() {
        if !is_digit(*byte) {
            return Digits { count, magnitude };
        }
        magnitude = with_digit(magnitude, *byte - b'0');
    }
    Digits {
        count: bytes.len(),
        magnitude,
    }
}

// How many blanks bytes begin with.
pub fn leading_blanks(bytes: &[u8]) -> usize
    ensures { result ≡ blanks_of bytes.now }
{
    bytes.iter().take_while(|byte| **byte == b' ').count()
}

// Digits without a minus sign, as a whole number.
fn from_zero(magnitude: Option<u16>) -> Result<u16, Error>
    ensures { (n : ℕ) → magnitude ≡ capped n → result ≡ fit (pos n) }
{
    match magnitude {
        Some(value) if value <= 32767 => Ok(value),
        _ => Err(Error::Overflow),
    }
}

// Digits after a minus sign, as a whole number.
fn below_zero(magnitude: Option<u16>) -> Result<u16, Error>
    ensures { (n : ℕ) → magnitude ≡ capped n → result ≡ fit (neg_ℤ (pos n)) }
{
    match magnitude {
        Some(value) if value <= 32768 => Ok(value.wrapping_neg()),
        _ => Err(Error::Overflow),
    }
}

// VAL: leading blanks, at most one sign, digits until something else.
pub fn val(bytes: &[u8]) -> Result<u16, Error>
    ensures { result ≡ val_of bytes.now }
{
    let start = leading_blanks(bytes);
    let rest = &bytes[start..];
    match rest {
        [b'-', digits @ ..] => below_zero(leading_digits(digits).magnitude),
        [b'+', digits @ ..] => from_zero(leading_digits(digits).magnitude),
        _ => from_zero(leading_digits(rest).magnitude),
    }
}

// What follows the sign that bytes begin with; all of them where they begin with none.
fn after_sign(bytes: &[u8]) -> &[u8]
    ensures { result.now ≡ drop (sign_length bytes.now) bytes.now }
{
    match bytes {
        [b'-' | b'+', rest @ ..] => rest,
        _ => bytes,
    }
}

// Digits only, and at least one.
fn digits_only(bytes: &[u8]) -> bool
    ensures { result ≡ digits_only bytes.now }
{
    !bytes.is_empty() && bytes.iter().all(|byte| is_digit(*byte))
}

// An item of DATA read as a number: one optional sign and digits only.
pub fn number_item(bytes: &[u8]) -> Result<u16, Error>
    ensures { result ≡ number_item bytes.now }
{
    if !digits_only(after_sign(bytes)) {
        return Err(Error::IllegalFunctionCall);
    }
    // It begins with no blank, so VAL reads the same.
    val(bytes)
}
