// What a made-up bale draws: every grade against prior, then every marker against beta and, for each present grade of its own, against alpha.
// No draw hangs on the success of another.
#![tactic(auto)]

mod bale;
mod number;

pub use bale::{TrialSetting, draw_bale};
