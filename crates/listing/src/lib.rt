// The listing that the program prints, as bytes in a buffer that the caller lends.
#![tactic(auto)]

mod fields;
mod lines;
mod parts;
mod totals;

pub use lines::{put_bale, put_refusal};
pub use parts::{put_beliefs, put_parts};
pub use totals::put_totals;
