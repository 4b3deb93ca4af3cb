// What a call that answers with a report is lent, and the checks that it has of the plain call.
ghost use Rattle.std.specs.Prelude.{◌≡◌, List, ◌/◌, ◌≤◌, Float, length};
ghost use Rattle.definition.specs.Refusals.{bale_of, verdict};
ghost use Rattle.definition.specs.Reads.{all_weak};
ghost use Rattle.definition.specs.Report.{ample_for, sizes_verdict};
ghost use Rattle.checks.specs.Verdicts.{verdict_of};
ghost use Rattle.reads.specs.Ran.{settings_in};
ghost use Rattle.reads.specs.Checked.{report_buffers_in, floats_for};

use crate::{Settings, put_reads};
use checks::{Buffers, Refusal, check};

// How many entries each buffer has that the caller lends.
#[derive(Clone, Copy)]
pub struct ReportBuffers {
    pub work_floats: usize,
    pub work_numbers: usize,
    pub report: usize,
}

// Number 2 is for a short report as for short work: with such a report the work counts as none.
fn floats_for(lent: ReportBuffers, needed: usize) -> usize
    ensures { result ≡ floats_for (report_buffers_in lent) needed }
{
    if lent.report < needed {
        return 0;
    }
    lent.work_floats
}

// What the plain call's checks say of the graph with every marker read weakly, 2 also where the report is under `needed` numbers.
pub fn check_weak(
    settings: Settings,
    grades: u32,
    markers: usize,
    pairs: &[u32],
    lent: ReportBuffers,
    needed: usize,
) -> Result<(), Refusal>
    requires { markers ≤ 1024 }
    ensures { (es : List Float) → length es / 2 ≡ markers → verdict_of result ≡ sizes_verdict (report_buffers_in lent) needed (bale_of grades es pairs.now) (verdict (settings_in settings) (ample_for (report_buffers_in lent) (bale_of grades es pairs.now)) (all_weak (bale_of grades es pairs.now))) }
{
    let mut evidence = [0.0; 2048];
    let weak = [false; 1024];
    put_reads(&mut evidence, markers, &weak);
    let n = 2 * markers;
    let count = grades as usize;
    let buffers = Buffers {
        work_floats: floats_for(lent, needed),
        work_numbers: lent.work_numbers,
        belief_numbers: count,
        belief_floats: 2 * count,
        ending_numbers: 4 * count,
        ending_floats: count,
    };
    check(
        settings.alpha,
        settings.beta,
        settings.prior,
        settings.regularised,
        settings.tolerance,
        settings.loop_limit,
        grades,
        &evidence[0..n],
        pairs,
        buffers,
    )
}
