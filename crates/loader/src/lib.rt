// Loading a recipe: the lines of a text, what is refused, and finding a line by its number.
#![tactic(auto)]

mod lines;
mod loading;
mod refusals;

pub use lines::{Extent, LineSpan, extent_at, find_line, line_at};
pub use loading::{Recipe, load};
pub use refusals::{Refusal, RefusedAt, refusal_number};
