// The listing of a bale, and of bales that follow one another, in a lent buffer.
#![tactic(auto)]

mod bale;
mod next;

pub use bale::list_bale;
pub use next::{Listed, list_last, list_next};
