// One pattern: its evidence, its run, and what it adds to the report.
ghost use Rattle.std.specs.Prelude.{◌≡◌, ◌*◌, ◌≤◌, length};
ghost use Rattle.pattern_laws.specs.Numbers.{pattern_at};
ghost use Rattle.reads.specs.Put.{read_floats};
ghost use Rattle.reads.specs.Ran.{settings_in};
ghost use Rattle.patterns.specs.Pattern.{Ready, Added};

use crate::tally::count_beliefs;
use reads::{Settings, put_read, run_reads};

// Marker m is read strongly if bit m of p is set.
fn put_pattern(evidence: &mut [f32], markers: usize, p: u32)
    requires { (length evidence.old ≡ 2 * markers) × (markers ≤ 10) }
    ensures { evidence.new ≡ read_floats (pattern_at markers p) }
{
    for m in 0..markers {
        put_read(evidence, m, (p >> m) % 2 == 1);
    }
}

pub(crate) fn count_pattern(
    settings: Settings,
    grades: u32,
    markers: usize,
    p: u32,
    evidence: &mut [f32],
    pairs: &[u32],
    work_floats: &mut [f32],
    work_numbers: &mut [u32],
    report: &mut [u32],
)
    requires evidence_len { length evidence.old ≡ 2 * markers }
    requires ready { Ready (settings_in settings) grades markers p pairs.now (length work_floats.old) (length work_numbers.old) report.old }
    ensures { Added (settings_in settings) grades markers p pairs.now work_floats.old work_numbers.old report.old work_floats.new work_numbers.new report.new }
{
    let mut numbers = [0; 1024];
    let mut floats = [0.0; 2048];
    put_pattern(evidence, markers, p);
    let count = run_reads(
        settings,
        grades,
        evidence,
        pairs,
        work_floats,
        work_numbers,
        &mut numbers,
        &mut floats,
    );
    count_beliefs(report, &numbers, &floats, count);
}
