// `Messages::new` and `initialize_messages`: the opening of a part, from nothing but its words, its evidence and the settings.
ghost use Rattle.std.specs.Prelude.{◌≡◌, List, Float};
ghost use Rattle.definition.specs.Settings.{Settings};
ghost use Rattle.definition.specs.Directions.{MessageGraph};
ghost use Rattle.definition.specs.Sweeps.{initialize_messages};
ghost use Rattle.messages.specs.Layout.{cut};
ghost use Rattle.opening.specs.OpenRows.{FactorSettings};
ghost use Rattle.opening.specs.Open.{OpenPart, SomeOpenPart, OpenFloats, SomeOpenFloats, Opened};

use crate::initialize::fill_initial;
use crate::passes::{open_factors, open_grades, open_inputs};
use array_utils::LogTable;
use messages::directions::word;

// All messages of the row: what is sent first, whatever stood there.
fn initialize_messages(
    table: &LogTable,
    row: &mut [f32],
    kinds: &[u32],
    firsts: &[u32],
    starts: &[u32],
    outs: &[u32],
    offsets: &[u32],
    labels: &[u32],
    evidence: &[f32],
    alpha: f32,
    beta: f32,
    prior: f32,
    regularised: bool,
)
    requires some_open_part { SomeOpenPart kinds.now firsts.now starts.now outs.now offsets.now labels.now evidence.now row.old }
    ensures { (s : Settings) (t : MessageGraph) → OpenPart s t kinds.now firsts.now starts.now outs.now offsets.now labels.now evidence.now row.old → FactorSettings s alpha beta regularised → s.prior ≡ prior → cut t.directions row.new ≡ initialize_messages s t }
{
    fill_initial(row, offsets);
    open_inputs(row, kinds, firsts, outs, offsets, labels, evidence);
    open_factors(
        row,
        kinds,
        firsts,
        starts,
        outs,
        offsets,
        alpha,
        beta,
        regularised,
    );
    open_grades(table, row, kinds, firsts, outs, offsets, prior);
}

// The messages in force, the new ones and the log are the same. What else the floats hold stays.
pub fn open_part(
    table: &LogTable,
    w: &mut [f32],
    kinds: &[u32],
    firsts: &[u32],
    starts: &[u32],
    outs: &[u32],
    offsets: &[u32],
    labels: &[u32],
    evidence: &[f32],
    alpha: f32,
    beta: f32,
    prior: f32,
    regularised: bool,
)
    requires some_open_floats { SomeOpenFloats kinds.now firsts.now starts.now outs.now offsets.now labels.now evidence.now w.old }
    ensures { (s : Settings) (t : MessageGraph) (r_in r_new r_log r_build pending rest : List Float) → OpenFloats s t kinds.now firsts.now starts.now outs.now offsets.now labels.now evidence.now w.old r_in r_new r_log r_build pending rest → FactorSettings s alpha beta regularised → s.prior ≡ prior → Opened s t r_build pending rest w.new }
{
    let l = word(offsets, offsets.len() - 1);
    initialize_messages(
        table,
        &mut w[0..l],
        kinds,
        firsts,
        starts,
        outs,
        offsets,
        labels,
        evidence,
        alpha,
        beta,
        prior,
        regularised,
    );
    w.copy_within(0..l, l);
    w.copy_within(0..l, 2 * l);
}
