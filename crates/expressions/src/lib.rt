// The readers of formulas: what follows one, its type, and how deep its parentheses nest.
#![tactic(auto)]

mod calls;
mod nots;
mod readers;
mod sorts;

pub use nots::{Nots, past_nots};
pub use readers::{FormulaRead, formula_at};
pub use sorts::{Sort, is_of, is_some, is_whole, of_kind};
