// The value of four bytes: low, middle and high byte of the mantissa, and the exponent.
ghost use Rattle.std.specs.Prelude.{◌≡◌, false, ◌≤◌, ◌<◌};
ghost use Rattle.std.specs.Float.Ieee.{fits};
ghost use Rattle.std.specs.Float.{binary32};
ghost use Rattle.readings.specs.Values.{mantissa_of, exactly, reading_of, exact_of, format_of, bits_of};
ghost use Rattle.readings.specs.Bits.{Denotes};

// What a reading is made into.
#[derive(Clone, Copy)]
pub enum Reading {
    Single(f32),
    Double(f64),
}

// 2 to the power -152.
const SMALLEST_POWER: f64 = 1.7516230804060213e-46;

// 8388608 and the 23 bits below it.
fn mantissa_of(low: u8, middle: u8, high: u8) -> u32
    ensures value { result ≡ mantissa_of low middle high }
    ensures lower_bound { (8388608 ≤ result) × (result < 16777216) }
{
    let top = u32::from(high) % 128;
    8388608 + (u32::from(low) + 256 * u32::from(middle) + 65536 * top)
}

// The mantissa times 2 to the power e - 152: each product is exact.
fn scaled(mantissa: u32, exponent: u8) -> f64
    requires { (0 < mantissa) × (mantissa < 16777216) }
    ensures { result ≡ exactly false mantissa exponent }
{
    let mut value = mantissa as f64 * SMALLEST_POWER;
    'sixteens: for _ in 0..exponent / 16 {
        value *= 65536.0;
    }
    'ones: for _ in 0..exponent % 16 {
        value *= 2.0;
    }
    value
}

// Whether a single holds the value exactly: 3 or more always, 2 when even, 1 when a multiple of 4.
fn single_holds(mantissa: u32, exponent: u8) -> bool
    requires { (0 < exponent) × (mantissa < 16777216) }
    ensures { result ≡ fits binary32 (exactly false mantissa exponent) }
{
    match exponent {
        1 => mantissa % 4 == 0,
        2 => mantissa % 2 == 0,
        _ => true,
    }
}

// What four bytes of an old machine are: a single where a single holds the value exactly, otherwise a double. Neither is off by a bit.
pub fn reading_of(low: u8, middle: u8, high: u8, exponent: u8) -> Reading
    ensures value { result ≡ reading_of low middle high exponent }
    ensures denotes { Denotes (format_of result) (bits_of result) (exact_of low middle high exponent) }
{
    if exponent == 0 {
        return Reading::Single(0.0);
    }
    let mantissa = mantissa_of(low, middle, high);
    let size = scaled(mantissa, exponent);
    let value = if high >= 128 { -size } else { size };
    if single_holds(mantissa, exponent) {
        let narrow = value as f32;
        return Reading::Single(narrow);
    }
    Reading::Double(value)
}
