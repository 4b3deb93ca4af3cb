// A part of the graph, in its ranges of the two work slices: opened, swept, made ready for the loop, stepped.
#![tactic(auto)]

pub mod begin;
pub mod belief;
pub mod open;
pub mod pending;
pub mod settings;
pub mod step;
pub mod sweep;
pub mod update;
