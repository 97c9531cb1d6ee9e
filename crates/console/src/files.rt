// Files read into lent bytes.
ghost use Rattle.std.specs.Prelude.{◌≡◌, ◌≤◌, ◌<◌, IfOk, IfSome, take, length};
ghost use Rattle.std.specs.Io.KnownBytes.{Consumes, IsAtEnd};
ghost use Rattle.console.specs.Counts.{IsPrefixLen};
ghost use Rattle.console.specs.Files.{Fronted, IsTakenOf};

use crate::arguments::LONGEST;
use crate::complaints::{complain, complain_of_error};
use std::env::{Env, FillError};
use std::fs::Files;
use std::io::{ErrorKind, Read, Write};
use std::{fs, io};

// Why a file was not taken whole: it has more bytes than there is room for, or it can't be read, and it was said why.
#[derive(Clone, Copy, Debug, PartialEq, Eq)]
pub enum Untaken {
    Longer,
    Unread,
}

// One read, tried again where a signal cut it short.
pub fn read_some<R: Read>(reader: &mut R, bytes: &mut [u8]) -> io::Result<usize>
    ensures bound { IfOk result (λ n. n ≤ length bytes.new) }
    ensures consumed { IfOk result (λ n. Consumes (R.remaining reader.old) (R.remaining reader.new) (take n bytes.new)) }
    ensures end { IfOk result (λ n. n ≡ 0 → 0 < length bytes.old → IsAtEnd (R.remaining reader.new)) }
{
    for _ in 0..u64::MAX {
        match reader.read(bytes) {
            Ok(n) => return Ok(n),
            Err(e) if e.kind() == ErrorKind::Interrupted => {}
            Err(e) => return Err(e),
        }
    }
    Err(io::Error::from(ErrorKind::Interrupted))
}

// Fills the front of lent bytes until they are full or nothing is left.
fn fill<R: Read>(reader: &mut R, bytes: &mut [u8]) -> io::Result<usize>
    ensures bound { IfOk result (λ n. n ≤ length bytes.new) }
    ensures consumed { IfOk result (λ n. Consumes (R.remaining reader.old) (R.remaining reader.new) (take n bytes.new)) }
    ensures end { IfOk result (λ n. n < length bytes.new → IsAtEnd (R.remaining reader.new)) }
{
    let mut at = 0;
    while at < bytes.len() {
        let n = read_some(reader, &mut bytes[at..])?;
        if n == 0 {
            return Ok(at);
        }
        at += n;
    }
    Ok(at)
}

// How many bytes a reader has, which then stand at the front of lent bytes; none where there are more than fit.
// A reader that goes on where it had stopped was not read well.
fn take_from<R: Read>(reader: &mut R, bytes: &mut [u8]) -> io::Result<Option<usize>>
    ensures fronted { IfOk result (λ taken. IfSome taken (λ n. IsPrefixLen n bytes.new)) }
    ensures taken { IfOk result (λ taken. IsTakenOf taken (R.remaining reader.old) bytes.new) }
{
    let count = fill(reader, bytes)?;
    let mut one = [0u8; 1];
    if read_some(reader, &mut one)? == 0 {
        return Ok(Some(count));
    }
    if count < bytes.len() {
        return Err(io::Error::from(ErrorKind::Other));
    }
    Ok(None)
}

// Says on standard error why a file can't be read.
pub fn complain_of_reading<W: Write>(err: &mut W, path: &[u8], error: &io::Error) {
    let _ = err.write_all(b"cannot read ");
    complain_of_error(err, path, error);
}

// Opens the file with a path. std opens none whose path is no UTF-8.
pub fn open_path<R: Files>(rt: &R, path: &[u8]) -> io::Result<R::File> {
    match str::from_utf8(path) {
        Ok(name) => fs::open(rt, name),
        Err(_) => Err(io::Error::from(ErrorKind::InvalidFilename)),
    }
}

fn take_path<R: Files>(rt: &R, path: &[u8], bytes: &mut [u8]) -> io::Result<Option<usize>>
    ensures { IfOk result (λ taken. IfSome taken (λ n. IsPrefixLen n bytes.new)) }
{
    let mut file = open_path(rt, path)?;
    take_from(&mut file, bytes)
}

// Puts the path that an argument gives at the front of lent bytes, and says how long it is; says on standard error why it can't.
pub fn path_given<R: Env, W: Write>(
    rt: &R,
    err: &mut W,
    place: usize,
    path: &mut [u8; LONGEST],
) -> Option<usize>
    ensures { IfSome result (λ len. len ≤ length path.new) }
{
    match rt.arg(place, path) {
        Ok(len) => Some(len),
        Err(FillError::TooLong) => {
            complain(err, b"cannot take an argument: File name too long");
            None
        }
        Err(FillError::NotPresent) => {
            complain(err, b"cannot take an argument: Invalid argument");
            None
        }
    }
}

// Reads the file that an argument names to the front of lent bytes; says on standard error why it can't.
pub fn take_file<R: Files + Env, W: Write>(
    rt: &R,
    err: &mut W,
    place: usize,
    bytes: &mut [u8],
) -> Result<usize, Untaken>
    ensures { Fronted result bytes.new }
{
    let mut path = [0u8; LONGEST];
    let len = path_given(rt, err, place, &mut path).ok_or(Untaken::Unread)?;
    match take_path(rt, &path[..len], bytes) {
        Ok(taken) => taken.ok_or(Untaken::Longer),
        Err(error) => {
            complain_of_reading(err, &path[..len], &error);
            Err(Untaken::Unread)
        }
    }
}

// The same of a file of which a front will do.
pub fn take_front<R: Files + Env, W: Write>(
    rt: &R,
    err: &mut W,
    place: usize,
    bytes: &mut [u8],
) -> Option<usize>
    ensures { IfSome result (λ n. IsPrefixLen n bytes.new) }
{
    match take_file(rt, err, place, bytes) {
        Ok(len) => Some(len),
        Err(Untaken::Longer) => Some(bytes.len()),
        Err(Untaken::Unread) => None,
    }
}

// Room for so many bytes.
pub fn room<const N: usize>() -> [u8; N]
    ensures { N ≡ length result }
{
    [0; N]
}

// Room for a recipe, and one byte: what is longer than a recipe may be is refused (100), however long it is.
pub fn recipe_room() -> [u8; 16385]
    ensures { 16385 ≡ length result }
{
    room()
}
