// src/convolution_tree.rs of the Rust, over one range of floats that the caller lends: no allocation, and every convolution direct.
#![tactic(auto)]

mod convolution;
mod first_layer;
mod layer;
mod tree;

pub use tree::{scratch_len, tree_messages};
