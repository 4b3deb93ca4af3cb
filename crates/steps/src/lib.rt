// The pieces of a scheduled step, over the rows of one part: the log, one message, what is pending.
#![tactic(auto)]

pub mod log;
pub mod pending;
pub mod single;
