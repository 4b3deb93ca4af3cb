// All read patterns of a small graph, as programs in C and Rust call it.
ghost use Rattle.std.specs.Prelude.{◌≡◌};
ghost use Rattle.definition.specs.Patterns.{pattern_call};
ghost use Rattle.definition.specs.Settings.{settings_of};
ghost use Rattle.reads.specs.Reported.{report_lent_with};
ghost use Rattle.pikaplatinum.specs.Reported.{ReportAnswers};
ghost use Rattle.pikaplatinum.specs.AllPatterns.{patterns_reply, patterns_to};

use checks::Refusal;
use patterns::count_patterns;

// How many grades are reported; or the refusal's number and place.
#[repr(C)]
#[derive(Clone, Copy)]
pub struct Patterns {
    pub refusal: u32,
    pub place: u32,
    pub grades: u32,
}

impl From<Result<u32, Refusal>> for Patterns {
    ghost from_gives = { λ answer reply. reply ≡ patterns_to answer };

    fn from(answer: Result<u32, Refusal>) -> Patterns {
        match answer {
            Ok(grades) => Patterns {
                refusal: 0,
                place: 0,
                grades: grades,
            },
            Err(refusal) => Patterns {
                refusal: refusal.check.number(),
                place: refusal.place,
                grades: 0,
            },
        }
    }
}

// Of the evidence only its length counts.
pub fn pikaplatinum_count_patterns(
    alpha: f32,
    beta: f32,
    prior: f32,
    regularised: bool,
    tolerance: f32,
    loop_limit: u32,
    grades: u32,
    evidence: &[f32],
    pairs: &[u32],
    work_floats: &mut [f32],
    work_numbers: &mut [u32],
    report: &mut [u32],
) -> Patterns
    ensures { ReportAnswers patterns_reply result (report_lent_with work_floats.new work_numbers.new report.new) (pattern_call (settings_of alpha beta prior regularised tolerance loop_limit) grades evidence.now pairs.now (report_lent_with work_floats.old work_numbers.old report.old)) }
{
    count_patterns(
        alpha,
        beta,
        prior,
        regularised,
        tolerance,
        loop_limit,
        grades,
        evidence,
        pairs,
        work_floats,
        work_numbers,
        report,
    )
    .into()
}
