// How long a recipe can take: the number of its statements, where no run of it can come to one of them twice.
#![tactic(auto)]

mod bounds;
mod jumps;

pub use bounds::bound_of;
