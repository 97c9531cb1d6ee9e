// The text of a whole number, built in a buffer by value.
ghost use Rattle.std.specs.Prelude.{◌≡◌, [], ℕ, suc, ◌%◌, ◌^◌, ◌≤◌, ◌<◌};
ghost use Rattle.whole.specs.Texts.{held, with_byte, with_bytes, digit_byte, numeral, signed_numeral, printed_number, hexadecimal};

// The bytes of a text stand first, zeros after them.
#[derive(Clone, Copy)]
pub struct Text {
    pub bytes: [u8; Text::LONGEST],
    pub len: u8,
}

impl Text {
    // A string holds 0 to 255 bytes.
    pub const LONGEST: usize = 255;

    pub fn empty() -> Text
        ensures { result ≡ held [] }
    {
        Text {
            bytes: [0; Text::LONGEST],
            len: 0,
        }
    }

    // The text with one byte more; a full one stays as it is.
    pub fn put(mut self, byte: u8) -> Text
        ensures { result ≡ with_byte self byte }
    {
        let at = usize::from(self.len);
        if at < Text::LONGEST {
            self.bytes[at] = byte;
            self.len += 1;
        }
        self
    }
}

// The byte of a digit: 0 to 9, then A to F.
fn digit_byte(digit: u8) -> u8
    requires { digit < 16 }
    ensures { result ≡ digit_byte digit }
{
    if digit < 10 {
        b'0' + digit
    } else {
        b'A' + (digit - 10)
    }
}

// The byte of a number's last hex digit.
pub fn hex_digit(number: u64) -> u8
    ensures { result ≡ digit_byte (number % 16) }
{
    digit_byte((number % 16) as u8)
}

// The text with the digits of a number after it, in a base of 2 to 16, without leading zeros.
pub fn put_numeral(text: Text, base: u64, value: u64) -> Text
    requires { (2 ≤ base) × (base ≤ 16) }
    ensures { (k : ℕ) → value < base ^ suc k → result ≡ with_bytes text (numeral base (suc k) value) }
{
    let last = digit_byte((value % base) as u8);
    if value < base {
        return text.put(last);
    }
    put_numeral(text, base, value / base).put(last)
}

// A blank or a minus, then the digits: what STR$ gives.
pub fn str_text(word: u16) -> Text
    ensures { result ≡ held (signed_numeral word) }
{
    let number = word.cast_signed();
    let sign = if number < 0 { b'-' } else { b' ' };
    put_numeral(
        Text::empty().put(sign),
        10,
        u64::from(number.unsigned_abs()),
    )
}

// STR$'s text and a blank: what PRINT shows.
pub fn print_text(word: u16) -> Text
    ensures { result ≡ held (printed_number word) }
{
    str_text(word).put(b' ')
}

// The 16 bits in capitals, without leading zeros: what HEX$ gives.
pub fn hex_text(word: u16) -> Text
    ensures { result ≡ held (hexadecimal word) }
{
    put_numeral(Text::empty(), 16, u64::from(word))
}

// The digits alone, of a number from 0 to 65535.
pub fn decimal_text(value: u16) -> Text
    ensures { result ≡ held (numeral 10 5 value) }
{
    put_numeral(Text::empty(), 10, u64::from(value))
}
