// The leaves of src/messages.rs of the Rust: each message, residual, test and belief from slices and values alone.
#![tactic(auto)]

mod belief;
pub mod directions;
mod factor;
mod opening;
mod rebuild;
mod residuals;
mod rows;
mod variable;

pub use belief::marginal;
pub use factor::out_message_factor;
pub use opening::{leave_one_out, log_total};
pub use rebuild::needs_rebuild;
pub use residuals::{residual, residual_binary, residual_vector};
pub use rows::logs;
pub use variable::{out_from_sums, out_message_variable};
