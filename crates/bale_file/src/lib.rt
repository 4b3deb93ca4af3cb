// The bale file, decoded from bytes that come in pieces of any size. Other crates see what `pub use` names, and nothing else.
#![tactic(auto)]

mod bale;
mod decoder;
mod fields;
mod reading;
mod word;

pub use bale::{fill_evidence, fill_pairs};
pub use decoder::{BadWord, Decoder, FedBale, feed, feed_bale, finish, start};
pub use fields::{alpha, beta, grade_count, is_regularised, is_zero_base, over_1024};
pub use reading::Reading;
