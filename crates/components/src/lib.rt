#![tactic(auto)]

pub mod components;
pub mod graph;
pub mod records;
