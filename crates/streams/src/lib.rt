// What programs do with the streams that they are given. What a reader or a writer of the system moves no contract can say: of those the contracts here speak
// by what `read` and `write` answered. Where a reader's or a writer's bytes are known, they say which bytes moved.
#![tactic(auto)]

mod calls;
mod input;
mod output;

pub use calls::{count, read_full, read_some, write_some};
pub use input::{Phase, is_reading, phase_after};
pub use output::hand_over;
