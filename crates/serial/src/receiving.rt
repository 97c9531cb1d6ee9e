// A text that comes in parts: begun, taken part by part, and loaded at the end.
ghost use Rattle.std.specs.Prelude.{◌≡◌, ◌≤◌, ltb, length};
ghost use Rattle.loader.specs.Loading.{longest_text};
ghost use Rattle.serial.specs.Receiving.{begun_of, held, placed, taken, ended, too_long, loaded_at, finished};
ghost use Rattle.serial.specs.bridge.Clearing.{zeros_from};

use loader::{Recipe, Refusal, RefusedAt, load};
use space::{Offset, clear_from, copy_in, fits};
use words::Place;

// How many bytes of a text a buffer holds; none of use where more came than a text may have.
pub type Receipt = Option<usize>;

// Whether a buffer is under 16,384 bytes.
fn is_short(len: usize) -> bool
    ensures { result ≡ ltb len longest_text }
{
    len < Recipe::LONGEST_TEXT
}

// A short buffer is refused at once.
pub fn begin(buffer: &[u8]) -> Result<Receipt, RefusedAt>
    ensures { result ≡ begun_of buffer.now }
{
    if is_short(buffer.len()) {
        return Err(RefusedAt {
            refusal: Refusal::NoRoom,
            place: Place(0),
        });
    }
    Ok(Some(0))
}

// A part behind so many bytes, where the longest text has room for it.
fn place_part(count: usize, buffer: &mut [u8], part: &[u8]) -> Receipt
    requires { longest_text ≤ length buffer.old }
    ensures { held result buffer.new ≡ placed count buffer.old part.now }
{
    if !fits(Recipe::LONGEST_TEXT, Offset(count), part.len()) {
        return None;
    }
    copy_in(buffer, Offset(count), part);
    Some(count + part.len())
}

// A part more of the text; a buffer that is refused is not touched.
pub fn take(receipt: Receipt, buffer: &mut [u8], part: &[u8]) -> Receipt
    ensures { held result buffer.new ≡ taken (held receipt buffer.old) part.now }
{
    if is_short(buffer.len()) {
        return receipt;
    }
    place_part(receipt?, buffer, part)
}

// More than a text may have is refused, and the whole buffer is zeros.
fn refuse_long(buffer: &mut [u8]) -> Result<(), RefusedAt>
    ensures { ended result buffer.new ≡ too_long (length buffer.old) }
{
    clear_from(buffer, Offset(0));
    Err(RefusedAt {
        refusal: Refusal::TextTooLong,
        place: Place(0),
    })
}

// Where zeros begin: behind a text that loads, and on a refusal at the first byte.
fn zeros_from(answer: Result<(), RefusedAt>, count: usize) -> Offset
    ensures { result.0 ≡ zeros_from answer count }
{
    match answer {
        Ok(()) => Offset(count),
        Err(_) => Offset(0),
    }
}

// So many bytes are loaded, and the answer decides what the buffer is left with.
fn load_held(count: usize, buffer: &mut [u8]) -> Result<(), RefusedAt>
    requires { longest_text ≤ length buffer.old }
    ensures { ended result buffer.new ≡ loaded_at count buffer.old }
{
    if Recipe::LONGEST_TEXT < count {
        return refuse_long(buffer);
    }
    let answer = load(&buffer[..count]);
    clear_from(buffer, zeros_from(answer, count));
    answer
}

// The end: the answer of loading all that came.
pub fn finish(receipt: Receipt, buffer: &mut [u8]) -> Result<(), RefusedAt>
    ensures { ended result buffer.new ≡ finished (held receipt buffer.old) }
{
    if is_short(buffer.len()) {
        return Err(RefusedAt {
            refusal: Refusal::NoRoom,
            place: Place(0),
        });
    }
    match receipt {
        None => refuse_long(buffer),
        Some(count) => load_held(count, buffer),
    }
}
