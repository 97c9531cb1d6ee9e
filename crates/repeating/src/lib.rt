// WHILE and WEND.
#![tactic(auto)]

mod wends;
mod whiles;

pub use wends::turn_back;
pub use whiles::repeat;
