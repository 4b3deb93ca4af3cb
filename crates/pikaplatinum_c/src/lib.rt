// The library as programs in C and Rust link it: include/pikaplatinum.h declares these functions. A slice is a pointer and a length there.
#![tactic(auto)]

ghost use Rattle.std.specs.Prelude.{◌≡◌};
ghost use Rattle.definition.specs.Call.{call};
ghost use Rattle.definition.specs.Patterns.{pattern_call};
ghost use Rattle.definition.specs.Readers.{match_call};
ghost use Rattle.definition.specs.Refusals.{least_buffers};
ghost use Rattle.definition.specs.Settings.{settings_of};
ghost use Rattle.definition.specs.Trials.{trials_of, trial_call};
ghost use Rattle.claims.specs.CallByParts.{AnsweredByParts};
ghost use Rattle.zero_lookahead_belief_propagation.specs.Called.{lent_with};
ghost use Rattle.reads.specs.Reported.{report_lent_with};
ghost use Rattle.pikaplatinum.specs.AllPatterns.{patterns_reply};
ghost use Rattle.pikaplatinum.specs.Matches.{MatchAnswers};
ghost use Rattle.pikaplatinum.specs.Reply.{Answers, buffers_of};
ghost use Rattle.pikaplatinum.specs.Reported.{ReportAnswers};
ghost use Rattle.pikaplatinum.specs.TriedSettings.{trials_reply};

use pikaplatinum::{Matches, Patterns, Reply, Sizes, Trials};

// The call. Of each part of an accepted one its result says what `AnsweredByParts` does.
#[unsafe(no_mangle)]
pub extern "C" fn pikaplatinum_calibrate_all_subgraphs(
    alpha: f32,
    beta: f32,
    prior: f32,
    regularised: bool,
    tolerance: f32,
    loop_limit: u32,
    grades: u32,
    evidence: &[f32],
    pairs: &[u32],
    work_floats: &mut [f32],
    work_numbers: &mut [u32],
    belief_numbers: &mut [u32],
    belief_floats: &mut [f32],
    ending_numbers: &mut [u32],
    ending_floats: &mut [f32],
) -> Reply
    ensures answers { Answers result (lent_with work_floats.new work_numbers.new belief_numbers.new belief_floats.new ending_numbers.new ending_floats.new) (call (settings_of alpha beta prior regularised tolerance loop_limit) grades evidence.now pairs.now (lent_with work_floats.old work_numbers.old belief_numbers.old belief_floats.old ending_numbers.old ending_floats.old)) }
    ensures answered_by_parts { AnsweredByParts (settings_of alpha beta prior regularised tolerance loop_limit) grades evidence.now pairs.now (lent_with work_floats.old work_numbers.old belief_numbers.old belief_floats.old ending_numbers.old ending_floats.old) (call (settings_of alpha beta prior regularised tolerance loop_limit) grades evidence.now pairs.now (lent_with work_floats.old work_numbers.old belief_numbers.old belief_floats.old ending_numbers.old ending_floats.old)) }
{
    pikaplatinum::pikaplatinum_calibrate_all_subgraphs(
        alpha,
        beta,
        prior,
        regularised,
        tolerance,
        loop_limit,
        grades,
        evidence,
        pairs,
        work_floats,
        work_numbers,
        belief_numbers,
        belief_floats,
        ending_numbers,
        ending_floats,
    )
}

// For a bale of so many grades, markers and pairs.
#[unsafe(no_mangle)]
pub extern "C" fn pikaplatinum_sizes(grades: u32, markers: u32, pairs: u32) -> Sizes
    ensures { buffers_of result ≡ least_buffers grades markers pairs }
{
    pikaplatinum::pikaplatinum_sizes(grades, markers, pairs)
}

// Of the evidence only its length counts.
#[unsafe(no_mangle)]
pub extern "C" fn pikaplatinum_count_patterns(
    alpha: f32,
    beta: f32,
    prior: f32,
    regularised: bool,
    tolerance: f32,
    loop_limit: u32,
    grades: u32,
    evidence: &[f32],
    pairs: &[u32],
    work_floats: &mut [f32],
    work_numbers: &mut [u32],
    report: &mut [u32],
) -> Patterns
    ensures { ReportAnswers patterns_reply result (report_lent_with work_floats.new work_numbers.new report.new) (pattern_call (settings_of alpha beta prior regularised tolerance loop_limit) grades evidence.now pairs.now (report_lent_with work_floats.old work_numbers.old report.old)) }
{
    pikaplatinum::pikaplatinum_count_patterns(
        alpha,
        beta,
        prior,
        regularised,
        tolerance,
        loop_limit,
        grades,
        evidence,
        pairs,
        work_floats,
        work_numbers,
        report,
    )
}

// Three numbers to a setting; of the evidence only its length counts.
#[unsafe(no_mangle)]
pub extern "C" fn pikaplatinum_try_settings(
    settings: &[u32],
    seed: u32,
    bales: u32,
    regularised: bool,
    tolerance: f32,
    loop_limit: u32,
    grades: u32,
    evidence: &[f32],
    pairs: &[u32],
    work_floats: &mut [f32],
    work_numbers: &mut [u32],
    report: &mut [u32],
) -> Trials
    ensures { ReportAnswers trials_reply result (report_lent_with work_floats.new work_numbers.new report.new) (trial_call (trials_of settings.now seed bales regularised tolerance loop_limit grades evidence.now pairs.now) (report_lent_with work_floats.old work_numbers.old report.old)) }
{
    pikaplatinum::pikaplatinum_try_settings(
        settings,
        seed,
        bales,
        regularised,
        tolerance,
        loop_limit,
        grades,
        evidence,
        pairs,
        work_floats,
        work_numbers,
        report,
    )
}

// The upper and the lower reads, two numbers each: a tick and a marker.
#[unsafe(no_mangle)]
pub extern "C" fn pikaplatinum_match_reads(
    upper: &[u32],
    lower: &[u32],
    window: u32,
    matches: &mut [u32],
) -> Matches
    ensures { MatchAnswers result matches.new (match_call upper.now lower.now window matches.old) }
{
    pikaplatinum::pikaplatinum_match_reads(upper, lower, window, matches)
}
