// The opening of a part, over its rows of words and its floats: what is sent first, and with what each direction waits first.
#![tactic(auto)]

pub mod begin;
pub mod initialize;
pub mod open;
pub mod passes;
