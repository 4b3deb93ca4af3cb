// Settings tried on made-up bales: each setting makes up its bales from the seed, and how often their beliefs agree with what was drawn is reported.
#![tactic(auto)]

mod call;
mod check;
mod tally;
mod trial;

pub use call::try_settings;
