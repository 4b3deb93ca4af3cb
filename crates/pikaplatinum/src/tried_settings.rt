// Settings tried on made-up bales, as programs in C and Rust call it.
ghost use Rattle.std.specs.Prelude.{◌≡◌};
ghost use Rattle.definition.specs.Trials.{trials_of, trial_call};
ghost use Rattle.reads.specs.Reported.{report_lent_with};
ghost use Rattle.pikaplatinum.specs.Reported.{ReportAnswers};
ghost use Rattle.pikaplatinum.specs.TriedSettings.{trials_reply, trials_to};

use checks::Refusal;
use trials::try_settings;

// How many settings are reported; or the refusal's number and place.
#[repr(C)]
#[derive(Clone, Copy)]
pub struct Trials {
    pub refusal: u32,
    pub place: u32,
    pub settings: u32,
}

impl From<Result<u32, Refusal>> for Trials {
    ghost from_gives = { λ answer reply. reply ≡ trials_to answer };

    fn from(answer: Result<u32, Refusal>) -> Trials {
        match answer {
            Ok(settings) => Trials {
                refusal: 0,
                place: 0,
                settings: settings,
            },
            Err(refusal) => Trials {
                refusal: refusal.check.number(),
                place: refusal.place,
                settings: 0,
            },
        }
    }
}

// Three numbers to a setting; of the evidence only its length counts.
pub fn pikaplatinum_try_settings(
    settings: &[u32],
    seed: u32,
    bales: u32,
    regularised: bool,
    tolerance: f32,
    loop_limit: u32,
    grades: u32,
    evidence: &[f32],
    pairs: &[u32],
    work_floats: &mut [f32],
    work_numbers: &mut [u32],
    report: &mut [u32],
) -> Trials
    ensures { ReportAnswers trials_reply result (report_lent_with work_floats.new work_numbers.new report.new) (trial_call (trials_of settings.now seed bales regularised tolerance loop_limit grades evidence.now pairs.now) (report_lent_with work_floats.old work_numbers.old report.old)) }
{
    try_settings(
        settings,
        seed,
        bales,
        regularised,
        tolerance,
        loop_limit,
        grades,
        evidence,
        pairs,
        work_floats,
        work_numbers,
        report,
    )
    .into()
}
