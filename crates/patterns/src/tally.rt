// The report: three numbers for each grade, of the patterns in which it is above 1/2, is not, and has no belief.
ghost use Rattle.std.specs.Prelude.{◌≡◌, ◌*◌, ◌≤◌, length};
ghost use Rattle.definition.specs.Call.{overwrite};
ghost use Rattle.patterns.specs.Tally.{started, HasRoom, moved, Movable, tallied};

use reads::is_above_half;

// At first every pattern counts as one without belief.
pub(crate) fn start_report(report: &mut [u32], grades: usize, patterns: u32)
    requires { 3 * grades ≤ length report.old }
    ensures { report.new ≡ overwrite (started grades patterns) report.old }
{
    for g in 0..grades {
        let at = 3 * g;
        report[at] = 0;
        report[at + 1] = 0;
        report[at + 2] = patterns;
    }
}

// A belief moves one pattern from those without belief to its side.
fn move_belief(report: &mut [u32], grade: usize, above: bool)
    requires { HasRoom grade above report.old }
    ensures { report.new ≡ moved report.old grade above }
{
    let at = 3 * grade;
    report[at + usize::from(!above)] += 1;
    report[at + 2] -= 1;
}

// The beliefs of one pattern.
pub(crate) fn count_beliefs(report: &mut [u32], numbers: &[u32], floats: &[f32], count: usize)
    requires { Movable count numbers.now floats.now report.old }
    ensures { report.new ≡ tallied count numbers.now floats.now report.old }
{
    for i in 0..count {
        let grade = numbers[i] as usize;
        let above = is_above_half(floats[2 * i + 1]);
        move_belief(report, grade, above);
    }
}
