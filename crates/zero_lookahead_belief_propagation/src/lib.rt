// The library's call (src/zero_lookahead_belief_propagation.rs of the Rust): checked, its graph built and cut, and each part answered.
#![tactic(auto)]

mod answer;
mod calibrate;
mod call;

pub use calibrate::clear_work;
pub use call::{Counts, calibrate_all_subgraphs};
