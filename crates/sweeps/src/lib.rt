// What each kind of node sends in a sweep, over the rows of one part.
#![tactic(auto)]

pub mod send;
pub mod send_tree;
pub mod sweep;
