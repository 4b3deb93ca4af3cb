// The call: checked, and all its patterns counted if it is accepted.
ghost use Rattle.std.specs.Prelude.{◌≡◌, length};
ghost use Rattle.definition.specs.Patterns.{pattern_call};
ghost use Rattle.definition.specs.Settings.{settings_of};
ghost use Rattle.reads.specs.Ran.{settings_in};
ghost use Rattle.reads.specs.Reported.{report_lent_with, report_result_with};
ghost use Rattle.patterns.specs.All.{Countable, CountedAll};

use crate::pattern::count_pattern;
use crate::tally::start_report;
use checks::{Check, Refusal};
use reads::{ReportBuffers, Settings, check_weak};

// Every pattern of an accepted call.
fn count_all(
    settings: Settings,
    grades: u32,
    markers: usize,
    evidence: &mut [f32],
    pairs: &[u32],
    work_floats: &mut [f32],
    work_numbers: &mut [u32],
    report: &mut [u32],
)
    requires { Countable (settings_in settings) grades markers pairs.now (length evidence.old) (length work_floats.old) (length work_numbers.old) (length report.old) }
    ensures { CountedAll (settings_in settings) grades markers pairs.now work_floats.old work_numbers.old report.old work_floats.new work_numbers.new report.new }
{
    let total: u32 = 1 << markers;
    start_report(report, grades as usize, total);
    for p in 0..total {
        count_pattern(
            settings,
            grades,
            markers,
            p,
            evidence,
            pairs,
            work_floats,
            work_numbers,
            report,
        );
    }
}

// Two floats of evidence to a marker, of which only their number counts, and two numbers to a pair. Three numbers for each grade are reported.
// A refusal leaves all that is lent as it was. An answer leaves zeros in the work that it needed.
pub fn count_patterns(
    alpha: f32,
    beta: f32,
    prior: f32,
    regularised: bool,
    tolerance: f32,
    loop_limit: u32,
    grades: u32,
    evidence: &[f32],
    pairs: &[u32],
    work_floats: &mut [f32],
    work_numbers: &mut [u32],
    report: &mut [u32],
) -> Result<u32, Refusal>
    ensures { report_result_with result (report_lent_with work_floats.new work_numbers.new report.new) ≡ pattern_call (settings_of alpha beta prior regularised tolerance loop_limit) grades evidence.now pairs.now (report_lent_with work_floats.old work_numbers.old report.old) }
{
    let markers = evidence.len() / 2;
    if 10 < markers {
        return Err(Refusal {
            check: Check::TooManyMarkers,
            place: 0,
        });
    }
    let settings = Settings {
        alpha: alpha,
        beta: beta,
        prior: prior,
        regularised: regularised,
        tolerance: tolerance,
        loop_limit: loop_limit,
    };
    let lent = ReportBuffers {
        work_floats: work_floats.len(),
        work_numbers: work_numbers.len(),
        report: report.len(),
    };
    check_weak(settings, grades, markers, pairs, lent, 3 * grades as usize)?;
    let mut reads = [0.0; 20];
    let n = 2 * markers;
    count_all(
        settings,
        grades,
        markers,
        &mut reads[0..n],
        pairs,
        work_floats,
        work_numbers,
        report,
    );
    Ok(grades)
}
