// Numbers that arguments give.
ghost use Rattle.std.specs.Prelude.{◌≡◌, ◌≤◌, ◌<◌, IfSome, MatchOption};
ghost use Rattle.whole.specs.Digits.{value_from};
ghost use Rattle.console.specs.Counts.{IsPrefixLen};
ghost use Rattle.console.specs.Arguments.{number_given, Limited, AtMost};

use crate::complaints::complain_of;
use std::env::{Env, FillError};
use std::io::Write;
use whole::leading_digits;

// More bytes than any path has that the system takes.
pub const LONGEST: usize = 4096;

// Why a text gives no number to go by: it is digits, but the number is too large, or it is none.
#[derive(Clone, Copy, Debug, PartialEq, Eq)]
pub enum BadNumber {
    TooLarge,
    NoNumber,
}

// An argument that is a number: what it is called, where it stands, the number where it is left out, and the largest.
#[derive(Clone, Copy)]
pub struct NumberArgument<'a> {
    pub name: &'a [u8],
    pub place: usize,
    pub usual: u32,
    pub most: u32,
}

// How many arguments there are, the program's own name among them.
pub fn argument_count<R: Env>(rt: &R) -> usize {
    (0..usize::MAX)
        .find(|place| matches!(rt.arg(*place, &mut [0u8; 1]), Err(FillError::NotPresent)))
        .unwrap_or(usize::MAX)
}

// Puts an argument at the front of a buffer, and says how long it is; none where it is missing or has more bytes.
pub(crate) fn argument<R: Env>(rt: &R, place: usize, text: &mut [u8; LONGEST]) -> Option<usize>
    ensures { IfSome result (λ len. IsPrefixLen len text.new) }
{
    rt.arg(place, text).ok()
}

// The value of digits; none where it is over a limit.
fn value_up_to(digits: &[u8], most: u32) -> Option<u32>
    ensures { MatchOption result (most < value_from 0 digits.now) (λ value. (value ≤ most) × (value ≡ value_from 0 digits.now)) }
{
    let mut value = 0;
    for digit in digits {
        let more = u64::from(value) * 10 + u64::from(digit.saturating_sub(b'0'));
        if u64::from(most) < more {
            return None;
        }
        value = more as u32;
    }
    Some(value)
}

// The number that a text gives: one or more digits and nothing else.
pub fn number_given(text: &[u8], most: u32) -> Result<u32, BadNumber>
    ensures { result ≡ number_given text.now most }
{
    let count = leading_digits(text).count;
    if count == 0 || count < text.len() {
        return Err(BadNumber::NoNumber);
    }
    value_up_to(text, most).ok_or(BadNumber::TooLarge)
}

impl NumberArgument<'_> {
    fn read<R: Env>(&self, rt: &R) -> Result<u32, BadNumber>
        ensures { Limited result self.now.most }
    {
        let mut text = [0u8; LONGEST];
        let len = argument(rt, self.place, &mut text).ok_or(BadNumber::NoNumber)?;
        number_given(&text[..len], self.most)
    }

    fn complain<R: Env, W: Write>(&self, rt: &R, err: &mut W, error: BadNumber) {
        let _ = err.write_all(self.name);
        let _ = match error {
            BadNumber::TooLarge => write!(err, " is more than {}", self.most),
            BadNumber::NoNumber => err.write_all(b" is no number"),
        };
        complain_of(rt, err, b"", self.place);
    }

    // The number to go by; none where a bad one is given, of which it is said why.
    pub fn given<R: Env, W: Write>(&self, rt: &R, err: &mut W) -> Option<u32>
        ensures { self.now.usual ≤ self.now.most → AtMost result self.now.most }
    {
        if argument_count(rt) <= self.place {
            return Some(self.usual);
        }
        match self.read(rt) {
            Ok(number) => Some(number),
            Err(error) => {
                self.complain(rt, err, error);
                None
            }
        }
    }
}
