// src/array_utils.rs of the Rust, with the stand-ins of document 01. Other crates see what `pub use` names, and nothing else.
#![tactic(auto)]

mod exponential;
mod ln;
mod message;
mod power;
mod row;
mod table;
mod vectors;

pub use exponential::exp;
pub use message::{VariableMessage, sum_logs_batched};
pub use power::{powers, powi};
pub use table::LogTable;
pub use vectors::{avoid_underflow, divide, max, normalize};
