// A part from its opening to its end, and the beliefs of its grades.
#![tactic(auto)]

pub mod beliefs;
pub mod run;
