// A scheduled step along one direction (`zero_lookahead_bp` of src/messages.rs): the residual, the log, the message, and what is pending.
ghost use Rattle.std.specs.Prelude.{◌≡◌, List, ℕ, ◌+◌, ◌*◌, ◌<◌, Float, get_or};
ghost use Rattle.definition.specs.Settings as definition;
ghost use Rattle.definition.specs.Directions.{MessageGraph};
ghost use Rattle.definition.specs.Messages.{residual};
ghost use Rattle.definition.specs.Priorities.{Highest};
ghost use Rattle.definition.specs.Run.{State, scheduled_step};
ghost use Rattle.definition.specs.Sweeps.{Store};
ghost use Rattle.messages.specs.State.{changed_of};
ghost use Rattle.steps.specs.StepChanged.{changed_from};
ghost use Rattle.steps.specs.StepLog.{ChangedBelow};
ghost use Rattle.zero_lookahead.specs.Part.{Given, StandsFor, Runs, SomeRunning, KeptFront};
ghost use Rattle.zero_lookahead.specs.StepStands.{SomeStands, StandsWith, logged_store};

use crate::pending::add_along;
use crate::settings::Settings;
use crate::update::update_message;
use array_utils::LogTable;
use messages::directions::{firsts_row, offsets_row, starts_row};
use steps::log::{Changed, residual_at, update_log};

// By how much the message in force along direction d differs from the logged one.
fn residual_along(table: &LogTable, w: &[f32], words: &[u32], out: usize, d: usize) -> f32
    requires some_stands { SomeStands out words.now w.now × (d < 2 * get_or words.now 1 0) }
    ensures { (s : definition.Settings) (t : MessageGraph) (evidence : List Float) (x : Store) → StandsFor s t out evidence x words.now w.now → result ≡ residual t x.msg_in x.msg_in_log d }
{
    residual_at(table, w, offsets_row(words, 0, out), d)
}

// What the nodes that changed hold, copied into the log.
fn log_changed(w: &mut [f32], words: &[u32], out: usize, changed: Changed)
    requires { SomeStands out words.now w.old × ChangedBelow (changed_from changed) (get_or words.now 0 0 + 1) }
    ensures { (s : definition.Settings) (t : MessageGraph) (evidence : List Float) (x : Store) (pending : List Float) (queue : List ℕ) → StandsWith s t out evidence x pending queue words.now w.old → StandsWith s t out evidence (logged_store t (changed_of t (changed_from changed)) x) pending queue words.now w.new }
{
    let firsts = firsts_row(words, 0);
    let starts = starts_row(words, 0, out);
    let offsets = offsets_row(words, 0, out);
    update_log(w, firsts, starts, offsets, changed);
}

// Along direction d. Which nodes changed, for the next step.
pub fn scheduled_step(
    table: &LogTable,
    w: &mut [f32],
    words: &mut [u32],
    out: usize,
    evidence: &[f32],
    settings: Settings,
    changed: Changed,
    d: usize,
) -> Changed
    requires some_running { SomeRunning settings out evidence.now words.old w.old }
    requires d_bound { (d < 2 * get_or words.old 1 0) × ChangedBelow (changed_from changed) (get_or words.old 0 0 + 1) }
    ensures kept_front { KeptFront out words.old words.new × ChangedBelow (changed_from result) (get_or words.new 0 0 + 1) }
    ensures runs { (s : definition.Settings) (t : MessageGraph) (x : State) (b : Highest) → Runs s t out evidence.now x words.old w.old → Given s settings → b.direction ≡ d → changed_of t (changed_from changed) ≡ x.changed → Runs s t out evidence.now (scheduled_step s t b x) words.new w.new × (changed_of t (changed_from result) ≡ (scheduled_step s t b x).changed) }
{
    let r = residual_along(table, w, words, out, d);
    log_changed(w, words, out, changed);
    let next = update_message(table, w, words, out, evidence, settings, d);
    add_along(w, words, out, d, r);
    next
}
