// The statement that stands at a place of a line: which it is, and doing it.
#![tactic(auto)]

mod doing;

pub use doing::do_statement;
