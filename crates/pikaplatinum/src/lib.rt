// What programs in C and Rust call, answered in numbers: the crate pikaplatinum_c exports these functions.
#![tactic(auto)]

ghost use Rattle.std.specs.Prelude.{◌≡◌};
ghost use Rattle.definition.specs.Call.{call};
ghost use Rattle.claims.specs.CallByParts.{AnsweredByParts};
ghost use Rattle.definition.specs.Settings.{settings_of};
ghost use Rattle.definition.specs.Refusals.{least_buffers};
ghost use Rattle.zero_lookahead_belief_propagation.specs.Called.{outcome_of, lent_with};
ghost use Rattle.pikaplatinum.specs.Reply.{reply_to, Answers, buffers_of};

use checks::Refusal;
use zero_lookahead_belief_propagation::{Counts, calibrate_all_subgraphs};

mod all_patterns;
mod matches;
mod tried_settings;

pub use all_patterns::{Patterns, pikaplatinum_count_patterns};
pub use matches::{Matches, pikaplatinum_match_reads};
pub use tried_settings::{Trials, pikaplatinum_try_settings};

// A result as numbers: refusal 0, and how many beliefs and endings there are; or the refusal's number and place.
#[repr(C)]
#[derive(Clone, Copy)]
pub struct Reply {
    pub refusal: u32,
    pub place: u32,
    pub beliefs: u32,
    pub endings: u32,
}

impl From<Result<Counts, Refusal>> for Reply {
    ghost from_gives = { λ answer reply. reply ≡ reply_to (outcome_of answer) };

    fn from(answer: Result<Counts, Refusal>) -> Reply {
        match answer {
            Ok(counts) => Reply {
                refusal: 0,
                place: 0,
                beliefs: counts.beliefs,
                endings: counts.endings,
            },
            Err(refusal) => Reply {
                refusal: refusal.check.number(),
                place: refusal.place,
                beliefs: 0,
                endings: 0,
            },
        }
    }
}

// The call. Of each part of an accepted one its result says what `AnsweredByParts` does.
pub fn pikaplatinum_calibrate_all_subgraphs(
    alpha: f32,
    beta: f32,
    prior: f32,
    regularised: bool,
    tolerance: f32,
    loop_limit: u32,
    grades: u32,
    evidence: &[f32],
    pairs: &[u32],
    work_floats: &mut [f32],
    work_numbers: &mut [u32],
    belief_numbers: &mut [u32],
    belief_floats: &mut [f32],
    ending_numbers: &mut [u32],
    ending_floats: &mut [f32],
) -> Reply
    ensures answers { Answers result (lent_with work_floats.new work_numbers.new belief_numbers.new belief_floats.new ending_numbers.new ending_floats.new) (call (settings_of alpha beta prior regularised tolerance loop_limit) grades evidence.now pairs.now (lent_with work_floats.old work_numbers.old belief_numbers.old belief_floats.old ending_numbers.old ending_floats.old)) }
    ensures answered_by_parts { AnsweredByParts (settings_of alpha beta prior regularised tolerance loop_limit) grades evidence.now pairs.now (lent_with work_floats.old work_numbers.old belief_numbers.old belief_floats.old ending_numbers.old ending_floats.old) (call (settings_of alpha beta prior regularised tolerance loop_limit) grades evidence.now pairs.now (lent_with work_floats.old work_numbers.old belief_numbers.old belief_floats.old ending_numbers.old ending_floats.old)) }
{
    calibrate_all_subgraphs(
        alpha,
        beta,
        prior,
        regularised,
        tolerance,
        loop_limit,
        grades,
        evidence,
        pairs,
        work_floats,
        work_numbers,
        belief_numbers,
        belief_floats,
        ending_numbers,
        ending_floats,
    )
    .into()
}

// How long each buffer must be.
#[repr(C)]
#[derive(Clone, Copy)]
pub struct Sizes {
    pub work_floats: u64,
    pub work_numbers: u64,
    pub belief_numbers: u64,
    pub belief_floats: u64,
    pub ending_numbers: u64,
    pub ending_floats: u64,
}

// For a bale of so many grades, markers and pairs.
pub fn pikaplatinum_sizes(grades: u32, markers: u32, pairs: u32) -> Sizes
    ensures { buffers_of result ≡ least_buffers grades markers pairs }
{
    let g = grades as u64;
    let work = 64 * (g + markers as u64 + pairs as u64) + 4096;
    Sizes {
        work_floats: work,
        work_numbers: work,
        belief_numbers: g,
        belief_floats: 2 * g,
        ending_numbers: 4 * g,
        ending_floats: g,
    }
}
