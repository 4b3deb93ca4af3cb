// What a bale file is answered, from its bytes: taken in piece by piece, up to an end word or to the end of the input, checked, and called for. No line is
// printed here.
#![tactic(auto)]

mod answer;
mod call;
mod input;
mod refusals;

pub use answer::answer_bale;
pub use input::{Input, TakenBale, begin, is_decided, take_bale, take_piece};
