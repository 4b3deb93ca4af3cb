// The factor graph of a bale, in words that the caller lends (src/factor_graph.rs of the Rust).
#![tactic(auto)]

pub mod build;
pub mod edges;
mod group;
pub mod kind;
mod nodes;
mod slots;
mod write_edges;
