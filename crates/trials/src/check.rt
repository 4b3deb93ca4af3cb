// The checks of a call that tries settings: 16, 17, then 1, 2, 3 of the settings and what else the plain call checks. Nothing that is lent is written.
ghost use Rattle.std.specs.Prelude.{◌≡◌, ◌||◌, List, ◌/◌, ◌≤◌, ltb, Float, length};
ghost use Rattle.definition.specs.Refusals.{lowest_place};
ghost use Rattle.definition.specs.Trials.{outside_range, setting_tests, trial_verdict, trial_settings_of, trials_of};
ghost use Rattle.checks.specs.Verdicts.{place_of, verdict_of};
ghost use Rattle.reads.specs.Checked.{report_buffers_in};
ghost use Rattle.trials.specs.Checked.{with_three};

use checks::{Check, Refusal, refuse};
use reads::{ReportBuffers, Settings, check_weak};

// 17
fn has_many(settings: &[u32], bales: u32) -> bool
    ensures { result ≡ (ltb 64 (length (trial_settings_of settings.now)) || ltb 1000 bales) }
{
    64 < settings.len() / 3 || 1000 < bales
}

// Whole numbers are compared: a large one would round on its way to a float.
fn is_outside(number: u32) -> bool
    ensures { result ≡ outside_range number }
{
    !(1..=1023).contains(&number)
}

// 3: a number's place in the slice is three times its setting's index and its place there.
fn check_settings(settings: &[u32]) -> Option<u32>
    requires { length (trial_settings_of settings.now) ≤ 64 }
    ensures { place_of result ≡ lowest_place (setting_tests (trial_settings_of settings.now)) }
{
    let count = 3 * (settings.len() / 3);
    for (i, number) in settings[..count].iter().enumerate() {
        if is_outside(*number) {
            return Some(i as u32);
        }
    }
    None
}

// 3 behind 1 and 2, and ahead of all else.
fn with_settings(rest: Result<(), Refusal>, settings: &[u32]) -> Result<(), Refusal>
    requires { length (trial_settings_of settings.now) ≤ 64 }
    ensures { verdict_of result ≡ with_three (lowest_place (setting_tests (trial_settings_of settings.now))) (verdict_of rest) }
{
    if let Err(refusal) = rest {
        if refusal.check.number() < 3 {
            return Err(refusal);
        }
    }
    refuse(Check::Probability, check_settings(settings))?;
    rest
}

// Of a graph of so many markers, whatever their evidence.
pub(crate) fn check_trials(
    settings: &[u32],
    seed: u32,
    bales: u32,
    regularised: bool,
    tolerance: f32,
    loop_limit: u32,
    grades: u32,
    markers: usize,
    pairs: &[u32],
    lent: ReportBuffers,
) -> Result<(), Refusal>
    ensures { (es : List Float) → length es / 2 ≡ markers → verdict_of result ≡ trial_verdict (report_buffers_in lent) (trials_of settings.now seed bales regularised tolerance loop_limit grades es pairs.now) }
{
    if seed == 0 {
        return Err(Refusal {
            check: Check::ZeroSeed,
            place: 0,
        });
    }
    if has_many(settings, bales) {
        return Err(Refusal {
            check: Check::TooManyTrials,
            place: 0,
        });
    }
    if 1024 < markers {
        return Err(Refusal {
            check: Check::TooMany,
            place: 0,
        });
    }
    let halves = Settings {
        alpha: 0.5,
        beta: 0.5,
        prior: 0.5,
        regularised: regularised,
        tolerance: tolerance,
        loop_limit: loop_limit,
    };
    let needed = 2 * (settings.len() / 3);
    let rest = check_weak(halves, grades, markers, pairs, lent, needed);
    with_settings(rest, settings)
}
