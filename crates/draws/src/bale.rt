// The draws of a bale.
ghost use Rattle.std.specs.Prelude.{◌≡◌, map, ◌/◌, ◌≤◌, length, replicate};
ghost use Rattle.definition.specs.FactorGraph.{Bale};
ghost use Rattle.definition.specs.Lists.{range};
ghost use Rattle.definition.specs.Call.{overwrite};
ghost use Rattle.definition.specs.Trials.{draw_each, draw_reads, made_up};
ghost use Rattle.draws.specs.Model.{drawn_of, draw_also, read_drawn, setting_in, DrewBale};
ghost use Rattle.draws.specs.Present.{Known, NoneCounted, PresentCounted, count_limits, limits_at, GraphOf};

use crate::number::{Drawn, draw};

// Alpha, beta and prior in 1,024ths.
#[derive(Clone, Copy)]
pub struct TrialSetting {
    pub alpha: u32,
    pub beta: u32,
    pub prior: u32,
}

// One draw for each of the first `grades` grades.
fn draw_grades(prior: u32, state: u32, grades: usize, present: &mut [bool]) -> u32
    requires { grades ≤ length present.old }
    ensures { (result ≡ (draw_each (replicate grades prior) state).state) × (present.new ≡ overwrite (draw_each (replicate grades prior) state).successes present.old) }
{
    let mut at = state;
    for g in 0..grades {
        let d = draw(prior, at);
        present[g] = d.success;
        at = d.state;
    }
    at
}

// How many present grades each marker has. All of them draw against one limit, so that only their number counts.
fn count_present(pairs: &[u32], present: &[bool], counts: &mut [u32])
    requires { Known (length present.now) (length counts.old) pairs.now × NoneCounted counts.old × (length pairs.now / 2 ≤ 8192) }
    ensures { PresentCounted present.now pairs.now counts.new }
{
    for i in 0..pairs.len() / 2 {
        let g = pairs[2 * i] as usize;
        let m = pairs[2 * i + 1] as usize;
        counts[m] += u32::from(present[g]);
    }
}

// One more draw, whatever succeeded before it: any success counts.
fn draw_also(limit: u32, before: Drawn) -> Drawn
    ensures { drawn_of result ≡ draw_also limit (drawn_of before) }
{
    let d = draw(limit, before.state);
    if d.success {
        return d;
    }
    Drawn {
        success: before.success,
        state: d.state,
    }
}

// A marker's draws: against beta, and against alpha once for each of its present grades.
fn draw_marker(setting: TrialSetting, state: u32, count: u32) -> Drawn
    ensures { drawn_of result ≡ read_drawn (count_limits (setting_in setting) count) state }
{
    let mut drawn = draw(setting.beta, state);
    for _ in 0..count {
        drawn = draw_also(setting.alpha, drawn);
    }
    drawn
}

// The reads of the first `markers` markers, which have so many present grades as `counts` has.
fn draw_reads(
    setting: TrialSetting,
    state: u32,
    markers: usize,
    counts: &[u32],
    reads: &mut [bool],
) -> u32
    requires { (markers ≤ length counts.now) × (markers ≤ length reads.old) }
    ensures { (result ≡ (draw_reads (map (limits_at (setting_in setting) counts.now) (range 0 markers)) state).state) × (reads.new ≡ overwrite (draw_reads (map (limits_at (setting_in setting) counts.now) (range 0 markers)) state).successes reads.old) }
{
    let mut at = state;
    for m in 0..markers {
        let d = draw_marker(setting, at, counts[m]);
        reads[m] = d.success;
        at = d.state;
    }
    at
}

// A made-up bale of every graph of so many grades and markers and these pairs.
pub fn draw_bale(
    setting: TrialSetting,
    state: u32,
    grades: usize,
    markers: usize,
    pairs: &[u32],
    present: &mut [bool],
    reads: &mut [bool],
) -> u32
    requires { Known grades markers pairs.now × (markers ≤ 1024) × (length pairs.now / 2 ≤ 8192) × (grades ≤ length present.old) × (markers ≤ length reads.old) }
    ensures { (b : Bale) → GraphOf b grades markers pairs.now → DrewBale (made_up (setting_in setting) b state) present.old reads.old result present.new reads.new }
{
    let mut counts = [0; 1024];
    let at = draw_grades(setting.prior, state, grades, present);
    count_present(pairs, present, &mut counts);
    draw_reads(setting, at, markers, &counts, reads)
}
