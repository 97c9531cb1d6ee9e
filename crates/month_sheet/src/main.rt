// month_sheet FILE
// Writes the totals of a sheet of run records, one a line: runs, runs of each outcome and error number, steps, mean steps; or one line:
// refused and the number of the record that is no record, or one too many.
#![tactic(auto)]

use console::{
    LONGEST, argument_count, complain, complain_of_reading, open_path, path_given, read_some, write,
};
use sheet::{Sheet, begin, finish, take};
use std::io;
use std::io::Read;

// The place of the argument; the program's own name is the first.
const FILE: usize = 1;

// How many bytes of a file are looked at together.
const PART: usize = 4096;

// The sheet that a file holds, read through a small buffer.
fn take_from<R: Read>(reader: &mut R) -> io::Result<Sheet> {
    let mut sheet = begin();
    let mut buffer = [0u8; PART];
    // More parts than any file has, so that reading ends.
    for _ in 0..u64::MAX {
        let count = read_some(reader, &mut buffer)?;
        if count == 0 {
            return Ok(sheet);
        }
        sheet = take(sheet, &buffer[..count]);
    }
    Err(io::Error::from(io::ErrorKind::FileTooLarge))
}

fn sheet_at(rt: &HostRuntime, path: &[u8]) -> io::Result<Sheet> {
    let mut file = open_path(rt, path)?;
    take_from(&mut file)
}

fn total_path(rt: &HostRuntime, path: &[u8]) {
    let mut err = rt.stderr();
    match sheet_at(rt, path) {
        Ok(sheet) => {
            write(&mut rt.stdout(), &mut err, finish(sheet).as_bytes());
        }
        Err(error) => complain_of_reading(&mut err, path, &error),
    }
}

fn main(rt: HostRuntime) {
    let mut err = rt.stderr();
    if argument_count(&rt) != FILE + 1 {
        complain(&mut err, b"usage: month_sheet FILE");
        return;
    }
    let mut path = [0u8; LONGEST];
    let Some(len) = path_given(&rt, &mut err, FILE, &mut path) else {
        return;
    };
    total_path(&rt, &path[..len]);
}
