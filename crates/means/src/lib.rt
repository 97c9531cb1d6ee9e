// The mean of whole numbers as two whole numbers in lowest terms.
#![tactic(auto)]

mod fractions;

pub use fractions::{Mean, mean_of};
