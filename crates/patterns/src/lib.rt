// All read patterns of a small graph: each is run, and what it says of each grade is counted.
#![tactic(auto)]

mod call;
mod pattern;
mod tally;

pub use call::count_patterns;
