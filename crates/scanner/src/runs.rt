// Runs of bytes that belong together.
ghost use Rattle.std.specs.Prelude.{◌≡◌, ◌+◌, length, drop};
ghost use Rattle.whole.specs.Bytes.{leading};
ghost use Rattle.words.specs.Classes.{is_hex};
ghost use Rattle.scanner.specs.Runs.{in_item, passes};

use whole::is_digit;
use words::{Place, is_letter};

// The runs of bytes that a token or a bare item of DATA is made of, and the blanks before it.
#[derive(Clone, Copy, PartialEq, Eq)]
pub enum Run {
    Blank,
    Word,
    Hex,
    Unquoted,
    Item,
}

#[tactic(auto, unfolding(whole::specs::Digits::is_digit, words::specs::Classes::capital_of, words::specs::Classes::is_hex))]
fn is_hex(byte: u8) -> bool
    ensures { result ≡ is_hex byte }
{
    byte.is_ascii_hexdigit()
}

// A comma, a colon or an apostrophe ends a bare item of DATA, and no quote stands in one.
fn in_item(byte: u8) -> bool
    ensures { result ≡ in_item byte }
{
    !matches!(byte, b',' | b':' | b'\'' | b'"')
}

// Whether a byte belongs to a run.
fn in_run(run: Run, byte: u8) -> bool
    ensures { result ≡ passes run byte }
{
    match run {
        Run::Blank => byte == b' ',
        Run::Word => is_letter(byte) || is_digit(byte),
        Run::Hex => is_hex(byte),
        Run::Unquoted => byte != b'"',
        Run::Item => in_item(byte),
    }
}

// The place where the run that stands at a place ends.
pub fn run_end(line: &[u8], at: Place, run: Run) -> Place
    ensures { result.0 ≡ at.0 + length (leading (passes run) (drop at.0 line.now)) }
{
    let rest = line.get(at.0..).unwrap_or(&[]);
    let count = rest.iter().take_while(|byte| in_run(run, **byte)).count();
    Place(at.0 + count)
}
