// What a host that is not written in Rattle calls: include/quernhem.h has the declarations in C.
#![tactic(auto)]

mod answers;
mod boxes;
mod indexing;
mod receipts;
mod receiving;

pub use boxes::{quernhem_ask, quernhem_check, quernhem_run};
pub use indexing::{quernhem_callers, quernhem_index, quernhem_line};
pub use receiving::{quernhem_begin, quernhem_finish, quernhem_take};
