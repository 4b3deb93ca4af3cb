// The bales of a setting, made up, run and tallied one after the other, and the settings one after the other.
ghost use Rattle.std.specs.Prelude.{◌≡◌, ◌+◌, ◌/◌, ◌^◌, ◌≤◌, ◌<◌, length};
ghost use Rattle.definition.specs.Call.{overwrite};
ghost use Rattle.definition.specs.Trials.{trial_counts};
ghost use Rattle.trial_laws.specs.Accepted.{InThousands};
ghost use Rattle.draws.specs.Model.{setting_in};
ghost use Rattle.reads.specs.Ran.{settings_in};
ghost use Rattle.trials.specs.Bale.{Tryable, TriedBale};
ghost use Rattle.trials.specs.Setting.{under_setting, TriedSetting};
ghost use Rattle.trials.specs.Each.{numbers_at, trials_at, TryableEach};

use crate::tally::{Tally, count_beliefs};
use bale_file::over_1024;
use draws::{TrialSetting, draw_bale};
use reads::{Settings, put_reads, run_reads};

// What the bales so far came to, and the number drawn last.
#[derive(Clone, Copy)]
pub(crate) struct Trial {
    pub agreed: u32,
    pub differed: u32,
    pub state: u32,
}

// Makes up a bale, runs it, and adds what its beliefs come to.
fn try_bale(
    settings: Settings,
    setting: TrialSetting,
    grades: u32,
    markers: usize,
    pairs: &[u32],
    work_floats: &mut [f32],
    work_numbers: &mut [u32],
    before: Trial,
) -> Trial
    requires tryable { Tryable (settings_in settings) grades markers pairs.now work_floats.old work_numbers.old }
    requires agreed_bound { (before.agreed + 1024 < 2 ^ 32) × (before.differed + 1024 < 2 ^ 32) }
    ensures tried_bale { TriedBale (settings_in settings) (setting_in setting) grades markers pairs.now before result }
    ensures work_floats_unchanged { (work_floats.new ≡ work_floats.old) × (work_numbers.new ≡ work_numbers.old) }
{
    let mut present = [false; 1024];
    let mut strong = [false; 1024];
    let mut evidence = [0.0; 2048];
    let mut numbers = [0; 1024];
    let mut floats = [0.0; 2048];
    let state = draw_bale(
        setting,
        before.state,
        grades as usize,
        markers,
        pairs,
        &mut present,
        &mut strong,
    );
    put_reads(&mut evidence, markers, &strong);
    let n = 2 * markers;
    let count = run_reads(
        settings,
        grades,
        &evidence[0..n],
        pairs,
        work_floats,
        work_numbers,
        &mut numbers,
        &mut floats,
    );
    let tally = Tally {
        agreed: before.agreed,
        differed: before.differed,
    };
    let after = count_beliefs(count, &numbers, &floats, &present, tally);
    Trial {
        agreed: after.agreed,
        differed: after.differed,
        state: state,
    }
}

fn settings_under(
    setting: TrialSetting,
    regularised: bool,
    tolerance: f32,
    loop_limit: u32,
) -> Settings
    requires { InThousands (setting_in setting) }
    ensures { settings_in result ≡ under_setting (setting_in setting) regularised tolerance loop_limit }
{
    Settings {
        alpha: over_1024(setting.alpha),
        beta: over_1024(setting.beta),
        prior: over_1024(setting.prior),
        regularised: regularised,
        tolerance: tolerance,
        loop_limit: loop_limit,
    }
}

// The bales of a setting, each from the state that the one before it left, the first from the seed.
fn try_setting(
    settings: Settings,
    setting: TrialSetting,
    seed: u32,
    bales: u32,
    grades: u32,
    markers: usize,
    pairs: &[u32],
    work_floats: &mut [f32],
    work_numbers: &mut [u32],
) -> Trial
    requires { Tryable (settings_in settings) grades markers pairs.now work_floats.old work_numbers.old × (bales ≤ 1000) }
    ensures tried_setting { TriedSetting (settings_in settings) (setting_in setting) grades markers pairs.now bales seed result }
    ensures work_floats_unchanged { (work_floats.new ≡ work_floats.old) × (work_numbers.new ≡ work_numbers.old) }
{
    let mut trial = Trial {
        agreed: 0,
        differed: 0,
        state: seed,
    };
    for _ in 0..bales {
        trial = try_bale(
            settings,
            setting,
            grades,
            markers,
            pairs,
            work_floats,
            work_numbers,
            trial,
        );
    }
    trial
}

fn setting_at(settings: &[u32], i: usize) -> TrialSetting
    requires { i < length settings.now / 3 }
    ensures { setting_in result ≡ numbers_at settings.now i }
{
    TrialSetting {
        alpha: settings[3 * i],
        beta: settings[3 * i + 1],
        prior: settings[3 * i + 2],
    }
}

// Every setting, from the seed; two numbers of the report for each.
pub(crate) fn try_each(
    settings: &[u32],
    seed: u32,
    bales: u32,
    regularised: bool,
    tolerance: f32,
    loop_limit: u32,
    grades: u32,
    markers: usize,
    pairs: &[u32],
    work_floats: &mut [f32],
    work_numbers: &mut [u32],
    report: &mut [u32],
)
    requires { TryableEach (trials_at settings.now seed bales regularised tolerance loop_limit grades markers pairs.now) grades markers pairs.now work_floats.old work_numbers.old (length report.old) }
    ensures report_after { report.new ≡ overwrite (trial_counts (trials_at settings.now seed bales regularised tolerance loop_limit grades markers pairs.now)) report.old }
    ensures work_floats_unchanged { (work_floats.new ≡ work_floats.old) × (work_numbers.new ≡ work_numbers.old) }
{
    for i in 0..settings.len() / 3 {
        let setting = setting_at(settings, i);
        let under = settings_under(setting, regularised, tolerance, loop_limit);
        let trial = try_setting(
            under,
            setting,
            seed,
            bales,
            grades,
            markers,
            pairs,
            work_floats,
            work_numbers,
        );
        report[2 * i] = trial.agreed;
        report[2 * i + 1] = trial.differed;
    }
}
