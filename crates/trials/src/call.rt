// The call: checked, and its settings tried if it is accepted.
ghost use Rattle.std.specs.Prelude.{◌≡◌};
ghost use Rattle.definition.specs.Trials.{trials_of, trial_call};
ghost use Rattle.reads.specs.Reported.{report_lent_with, report_result_with};
ghost use Rattle.trials.specs.Called.{Triable, Tried};

use crate::check::check_trials;
use crate::trial::try_each;
use checks::Refusal;
use reads::ReportBuffers;
use zero_lookahead_belief_propagation::clear_work;

// An accepted call. The work is cleared first, for there may be no setting or no bale.
fn try_accepted(
    settings: &[u32],
    seed: u32,
    bales: u32,
    regularised: bool,
    tolerance: f32,
    loop_limit: u32,
    grades: u32,
    markers: usize,
    pairs: &[u32],
    work_floats: &mut [f32],
    work_numbers: &mut [u32],
    report: &mut [u32],
)
    requires { Triable settings.now seed bales regularised tolerance loop_limit grades markers pairs.now (report_lent_with work_floats.old work_numbers.old report.old) }
    ensures { Tried settings.now seed bales regularised tolerance loop_limit grades markers pairs.now (report_lent_with work_floats.old work_numbers.old report.old) (report_lent_with work_floats.new work_numbers.new report.new) }
{
    let needed = 64 * (grades as usize + markers + pairs.len() / 2) + 4096;
    clear_work(&mut work_floats[0..needed], &mut work_numbers[0..needed]);
    try_each(
        settings,
        seed,
        bales,
        regularised,
        tolerance,
        loop_limit,
        grades,
        markers,
        pairs,
        work_floats,
        work_numbers,
        report,
    );
}

// Three numbers to a setting, alpha, beta and prior in 1,024ths; two floats of evidence to a marker, of which only their number counts; two numbers to a pair.
// Two numbers for each setting are reported. A refusal leaves all that is lent as it was. An answer leaves zeros in the work that it needed.
pub fn try_settings(
    settings: &[u32],
    seed: u32,
    bales: u32,
    regularised: bool,
    tolerance: f32,
    loop_limit: u32,
    grades: u32,
    evidence: &[f32],
    pairs: &[u32],
    work_floats: &mut [f32],
    work_numbers: &mut [u32],
    report: &mut [u32],
) -> Result<u32, Refusal>
    ensures { report_result_with result (report_lent_with work_floats.new work_numbers.new report.new) ≡ trial_call (trials_of settings.now seed bales regularised tolerance loop_limit grades evidence.now pairs.now) (report_lent_with work_floats.old work_numbers.old report.old) }
{
    let markers = evidence.len() / 2;
    let lent = ReportBuffers {
        work_floats: work_floats.len(),
        work_numbers: work_numbers.len(),
        report: report.len(),
    };
    check_trials(
        settings,
        seed,
        bales,
        regularised,
        tolerance,
        loop_limit,
        grades,
        markers,
        pairs,
        lent,
    )?;
    try_accepted(
        settings,
        seed,
        bales,
        regularised,
        tolerance,
        loop_limit,
        grades,
        markers,
        pairs,
        work_floats,
        work_numbers,
        report,
    );
    Ok((settings.len() / 3) as u32)
}
