// The cases of runs: everything that a run answers and leaves in what is lent.
use crate::room;
use crate::saying::{each, front, line_end, number, others, word};
use runner::{Outcome, Ran, is_refused, run_with};
use std::io::Stdout;
use variables::{Numbers, Strings, Tables};
use words::Name;

// What the lent bytes hold before a run.
const OLD: u8 = 170;

// What a case lends: how many bytes of string space and of room for output, the budget, and how many records.
#[derive(Clone, Copy)]
pub(crate) struct Lent {
    pub(crate) space: usize,
    pub(crate) room: usize,
    pub(crate) budget: u32,
    pub(crate) records: usize,
}

// Outcome, number, line and place; what does not apply is 0.
fn ending(out: Stdout, name: &[u8], fault: u8, line: u16, place: usize) {
    word(out, name);
    number(out, u64::from(fault));
    number(out, u64::from(line));
    number(out, place as u64);
}

fn show_outcome(out: Stdout, outcome: Outcome) {
    match outcome {
        Outcome::Ended => ending(out, b"ended", 0, 0, 0),
        Outcome::Stopped(line) => ending(out, b"stopped", 0, line.0, 0),
        Outcome::Out(line) => ending(out, b"out", 0, line.0, 0),
        Outcome::Failed(error, line) => ending(out, b"error", whole::number_of(error), line.0, 0),
        Outcome::Refused(refusal, place) => ending(
            out,
            b"refused",
            loader::refusal_number(refusal),
            0,
            place.0,
        ),
    }
}

// The names and words in use, and how many of the unused ones are not zero.
fn show_numbers(out: Stdout, numbers: Numbers) {
    let names = numbers.names;
    let words = numbers.words;
    let count = numbers.count % 65;
    front(out, &names, Name::WIDTH * count);
    others(out, &names, Name::WIDTH * count, 0);
    each(out, &words, count);
    others(out, &words, count, 0);
}

fn show_strings(out: Stdout, strings: Strings) {
    let names = strings.names;
    let lengths = strings.lengths;
    let count = strings.count % 65;
    front(out, &names, Name::WIDTH * count);
    others(out, &names, Name::WIDTH * count, 0);
    front(out, &lengths, count);
    others(out, &lengths, count, 0);
}

// How many bytes all strings have.
fn string_bytes(strings: Strings) -> usize {
    let mut sum = 0;
    for len in &strings.lengths {
        sum += usize::from(*len);
    }
    sum
}

// The variables' bytes and zeros after them; a refusal leaves what there was.
fn show_space(out: Stdout, refused: bool, used: usize, space: &[u8]) {
    if refused {
        others(out, space, 0, OLD);
    } else {
        front(out, space, used);
        others(out, space, used, 0);
    }
}

fn show(out: Stdout, ran: Ran, space: &[u8], room: &[u8]) {
    let outcome = ran.outcome;
    show_outcome(out, outcome);
    number(out, u64::from(ran.steps));
    let written = ran.written;
    number(out, written as u64);
    number(out, ran.taken as u64);
    front(out, room, written);
    others(out, room, written, OLD);
    let tables = ran.tables;
    let numbers = tables.numbers;
    let strings = tables.strings;
    show_space(out, is_refused(outcome), string_bytes(strings), space);
    show_numbers(out, numbers);
    show_strings(out, strings);
    line_end(out);
}

// What the tables hold before a run: a number QN that is 41, and a string QT of three bytes. A refusal hands them back.
fn old_tables() -> Tables {
    let mut names = [0; Tables::NAMES];
    names[0] = b'Q';
    names[1] = b'N';
    let mut words = [0; Tables::MOST];
    words[0] = 41;
    let mut labels = [0; Tables::NAMES];
    labels[0] = b'Q';
    labels[1] = b'T';
    let mut lengths = [0; Tables::MOST];
    lengths[0] = 3;
    let numbers = Numbers {
        names,
        words,
        count: 1,
    };
    let strings = Strings {
        names: labels,
        lengths,
        count: 1,
    };
    Tables { numbers, strings }
}

// Nothing where there is less room than asked for.
pub(crate) fn answer(out: Stdout, text: &[u8], input: &[u8], lent: Lent) {
    let mut strings = room(OLD);
    let mut output = room(OLD);
    let Some(space) = strings.get_mut(..lent.space) else {
        return;
    };
    let Some(printed) = output.get_mut(..lent.room) else {
        return;
    };
    let ran = run_with(
        text,
        input,
        space,
        printed,
        &[],
        lent.records,
        lent.budget,
        old_tables(),
    );
    show(out, ran, space, printed);
}
