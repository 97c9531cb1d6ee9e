// The cases of the check.
use crate::saying::{line_end, number, word};
use checker::{Fault, check_recipe};
use std::io::Stdout;

fn refused(out: Stdout, fault: u8, standing: u64) {
    word(out, b"refused");
    number(out, u64::from(fault));
    number(out, standing);
}

pub(crate) fn answer(out: Stdout, text: &[u8]) {
    match check_recipe(text) {
        Ok(()) => word(out, b"passed"),
        Err(Fault::Refused(refusal, place)) => {
            refused(out, loader::refusal_number(refusal), place.0 as u64);
        }
        Err(Fault::Faulty(error, line)) => {
            refused(out, whole::number_of(error), u64::from(line.0));
        }
    }
    line_end(out);
}
