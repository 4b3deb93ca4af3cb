// The three passes of `initialize_messages`: first the inputs, then the factors, then the grades.
ghost use Rattle.std.specs.Prelude.{◌≡◌, ◌<◌, length};
ghost use Rattle.definition.specs.Settings.{Settings};
ghost use Rattle.definition.specs.FactorGraph.{is_grade, is_factor, is_input};
ghost use Rattle.definition.specs.Directions.{MessageGraph, node_at};
ghost use Rattle.definition.specs.Sweeps.{update_kind, opening_input, opening_factor, opening_grade};
ghost use Rattle.messages.specs.Layout.{cut};
ghost use Rattle.messages.specs.LayoutSweeps.{kind_step};
ghost use Rattle.opening.specs.OpenRows.{FactorRows, FactorSettings};
ghost use Rattle.opening.specs.OpenKinds.{InputsRows, SomeInputsRows, SomeFactorsRows, GradesRows, SomeGradesRows};

use crate::initialize::{open_factor, open_grade, send_same};
use array_utils::{LogTable, VariableMessage};
use factor_graph::kind::NodeKind;
use messages::directions::word;

// An input sends its belief, which stands at its label in the evidence.
fn open_input(
    row: &mut [f32],
    kinds: &[u32],
    firsts: &[u32],
    outs: &[u32],
    offsets: &[u32],
    labels: &[u32],
    evidence: &[f32],
    n: usize,
)
    requires { SomeInputsRows kinds.now firsts.now outs.now offsets.now labels.now evidence.now row.old × (n < length kinds.now) }
    ensures { (s : Settings) (t : MessageGraph) → InputsRows s t kinds.now firsts.now outs.now offsets.now labels.now evidence.now row.old → cut t.directions row.new ≡ kind_step is_input (opening_input s) (node_at t n) (cut t.directions row.old) }
{
    if word(kinds, n) != NodeKind::Input as usize {
        return;
    }
    let at = 2 * word(labels, n);
    let belief = VariableMessage::read(evidence, at);
    send_same(row, firsts, outs, offsets, n, belief);
}

fn open_if_factor(
    row: &mut [f32],
    kinds: &[u32],
    firsts: &[u32],
    starts: &[u32],
    outs: &[u32],
    offsets: &[u32],
    n: usize,
    alpha: f32,
    beta: f32,
    regularised: bool,
)
    requires { SomeFactorsRows kinds.now firsts.now starts.now outs.now offsets.now row.old × (n < length kinds.now) }
    ensures { (s : Settings) (t : MessageGraph) → FactorRows s t kinds.now firsts.now starts.now outs.now offsets.now row.old → FactorSettings s alpha beta regularised → cut t.directions row.new ≡ kind_step is_factor (opening_factor s t) (node_at t n) (cut t.directions row.old) }
{
    if word(kinds, n) != NodeKind::Factor as usize {
        return;
    }
    open_factor(
        row,
        kinds,
        firsts,
        starts,
        outs,
        offsets,
        n,
        alpha,
        beta,
        regularised,
    );
}

fn open_if_grade(
    table: &LogTable,
    row: &mut [f32],
    kinds: &[u32],
    firsts: &[u32],
    outs: &[u32],
    offsets: &[u32],
    n: usize,
    prior: f32,
)
    requires some_grades_rows { SomeGradesRows kinds.now firsts.now outs.now offsets.now row.old × (n < length kinds.now) }
    ensures { (s : Settings) (t : MessageGraph) → GradesRows s t kinds.now firsts.now outs.now offsets.now row.old → s.prior ≡ prior → cut t.directions row.new ≡ kind_step is_grade (opening_grade s) (node_at t n) (cut t.directions row.old) }
{
    if word(kinds, n) != NodeKind::Grade as usize {
        return;
    }
    open_grade(table, row, firsts, outs, offsets, n, prior);
}

pub(crate) fn open_inputs(
    row: &mut [f32],
    kinds: &[u32],
    firsts: &[u32],
    outs: &[u32],
    offsets: &[u32],
    labels: &[u32],
    evidence: &[f32],
)
    requires { SomeInputsRows kinds.now firsts.now outs.now offsets.now labels.now evidence.now row.old }
    ensures { (s : Settings) (t : MessageGraph) → InputsRows s t kinds.now firsts.now outs.now offsets.now labels.now evidence.now row.old → cut t.directions row.new ≡ update_kind is_input (opening_input s) t.nodes (cut t.directions row.old) }
{
    for n in 0..kinds.len() {
        open_input(row, kinds, firsts, outs, offsets, labels, evidence, n);
    }
}

pub(crate) fn open_factors(
    row: &mut [f32],
    kinds: &[u32],
    firsts: &[u32],
    starts: &[u32],
    outs: &[u32],
    offsets: &[u32],
    alpha: f32,
    beta: f32,
    regularised: bool,
)
    requires { SomeFactorsRows kinds.now firsts.now starts.now outs.now offsets.now row.old }
    ensures { (s : Settings) (t : MessageGraph) → FactorRows s t kinds.now firsts.now starts.now outs.now offsets.now row.old → FactorSettings s alpha beta regularised → cut t.directions row.new ≡ update_kind is_factor (opening_factor s t) t.nodes (cut t.directions row.old) }
{
    for n in 0..kinds.len() {
        open_if_factor(
            row,
            kinds,
            firsts,
            starts,
            outs,
            offsets,
            n,
            alpha,
            beta,
            regularised,
        );
    }
}

pub(crate) fn open_grades(
    table: &LogTable,
    row: &mut [f32],
    kinds: &[u32],
    firsts: &[u32],
    outs: &[u32],
    offsets: &[u32],
    prior: f32,
)
    requires some_grades_rows { SomeGradesRows kinds.now firsts.now outs.now offsets.now row.old }
    ensures { (s : Settings) (t : MessageGraph) → GradesRows s t kinds.now firsts.now outs.now offsets.now row.old → s.prior ≡ prior → cut t.directions row.new ≡ update_kind is_grade (opening_grade s) t.nodes (cut t.directions row.old) }
{
    for n in 0..kinds.len() {
        open_if_grade(table, row, kinds, firsts, outs, offsets, n, prior);
    }
}
