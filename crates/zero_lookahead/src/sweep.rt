// A sweep of a part (`compute_update` of the Rust): every node sends, from the messages in force into the new ones, and then the rows change places.
ghost use Rattle.std.specs.Prelude.{◌≡◌, false, List, ◌+◌, Float, length, get_or};
ghost use Rattle.definition.specs.Settings as definition;
ghost use Rattle.definition.specs.Directions.{MessageGraph};
ghost use Rattle.definition.specs.Sweeps.{Store, sweep};
ghost use Rattle.sweeps.specs.SweepNode.{NodeSent};
ghost use Rattle.zero_lookahead.specs.Part.{rows_end, Given, StandsFor, SomeStanding, KeptFront};
ghost use Rattle.zero_lookahead.specs.SweepLoop.{Swept};
ghost use Rattle.zero_lookahead.specs.SweepSend.{NodeRows, SomeNode, SomeNodeOf};

use crate::belief::initial_belief;
use crate::settings::Settings;
use array_utils::LogTable;
use factor_graph::kind::NodeKind;
use messages::directions::{firsts_row, offsets_row, outs_row, word};
use sweeps::send::{send_factor, send_variable};
use sweeps::send_tree::send_tree;
use sweeps::sweep::rotate;

// A grade or an input.
fn send_from_variable(
    table: &LogTable,
    w: &mut [f32],
    words: &[u32],
    out: usize,
    evidence: &[f32],
    prior: f32,
    n: usize,
)
    requires some_node { SomeNode out evidence.now words.now w.old n × (get_or words.now (2 + n) 0 ≡ 1 → ⊥) × (get_or words.now (2 + n) 0 ≡ 3 → ⊥) }
    ensures { (s : definition.Settings) (t : MessageGraph) (r_in r_new r_log r_build pending rest : List Float) → NodeRows s t out evidence.now words.now w.old r_in r_new r_log r_build pending rest n → s.prior ≡ prior → NodeSent s t r_in r_new r_log r_build pending rest (get_or words.now (rows_end words.now out + n) 0) n false w.new }
{
    let belief = initial_belief(words, evidence, prior, n);
    let firsts = firsts_row(words, 0);
    let outs = outs_row(words, 0, out);
    let offsets = offsets_row(words, 0, out);
    let l = word(offsets, offsets.len() - 1);
    let first = word(firsts, n);
    let k = word(firsts, n + 1) - first;
    send_variable(table, belief, w, outs, offsets, l, first, k);
}

fn send_from_factor(
    w: &mut [f32],
    words: &[u32],
    out: usize,
    alpha: f32,
    beta: f32,
    regularised: bool,
    n: usize,
)
    requires { SomeNodeOf 1 out words.now w.old n }
    ensures { (s : definition.Settings) (t : MessageGraph) (evidence r_in r_new r_log r_build pending rest : List Float) → NodeRows s t out evidence words.now w.old r_in r_new r_log r_build pending rest n → s.alpha ≡ alpha → s.beta ≡ beta → s.regularised ≡ regularised → NodeSent s t r_in r_new r_log r_build pending rest (get_or words.now (rows_end words.now out + n) 0) n false w.new }
{
    let firsts = firsts_row(words, 0);
    let outs = outs_row(words, 0, out);
    let offsets = offsets_row(words, 0, out);
    let l = word(offsets, offsets.len() - 1);
    let first = word(firsts, n);
    send_factor(w, outs, offsets, l, first, alpha, beta, regularised);
}

// Whether the tree was built anew.
pub(crate) fn send_from_tree(
    table: &LogTable,
    w: &mut [f32],
    words: &[u32],
    out: usize,
    tolerance: f32,
    n: usize,
) -> bool
    requires some_node_of { SomeNodeOf 3 out words.now w.old n }
    ensures { (s : definition.Settings) (t : MessageGraph) (evidence r_in r_new r_log r_build pending rest : List Float) → NodeRows s t out evidence words.now w.old r_in r_new r_log r_build pending rest n → s.tolerance ≡ tolerance → NodeSent s t r_in r_new r_log r_build pending rest (get_or words.now (rows_end words.now out + n) 0) n result w.new }
{
    let firsts = firsts_row(words, 0);
    let outs = outs_row(words, 0, out);
    let offsets = offsets_row(words, 0, out);
    let directions = offsets.len() - 1;
    let l = word(offsets, directions);
    let first = word(firsts, n);
    let k = word(firsts, n + 1) - first;
    let flag = words[out + 3 * directions + 1 + n];
    let scratch = 4 * l + directions;
    send_tree(
        table, tolerance, w, outs, offsets, l, flag, first, k, scratch,
    )
}

// By the node's kind. Whether it is a tree that was built anew.
fn send_node(
    table: &LogTable,
    w: &mut [f32],
    words: &[u32],
    out: usize,
    evidence: &[f32],
    settings: Settings,
    n: usize,
) -> bool
    requires some_node { SomeNode out evidence.now words.now w.old n }
    ensures { (s : definition.Settings) (t : MessageGraph) (r_in r_new r_log r_build pending rest : List Float) → NodeRows s t out evidence.now words.now w.old r_in r_new r_log r_build pending rest n → Given s settings → NodeSent s t r_in r_new r_log r_build pending rest (get_or words.now (rows_end words.now out + n) 0) n result w.new }
{
    let kind = words[2 + n];
    if kind == NodeKind::Tree as u32 {
        return send_from_tree(table, w, words, out, settings.tolerance, n);
    }
    if kind == NodeKind::Factor as u32 {
        send_from_factor(
            w,
            words,
            out,
            settings.alpha,
            settings.beta,
            settings.regularised,
            n,
        );
        return false;
    }
    send_from_variable(table, w, words, out, evidence, settings.prior, n);
    false
}

// All nodes, one after the other, from the messages in force into the new ones; a tree that is built anew has its flag set.
fn send_nodes(
    table: &LogTable,
    w: &mut [f32],
    words: &mut [u32],
    out: usize,
    evidence: &[f32],
    settings: Settings,
)
    requires some_standing { SomeStanding settings out evidence.now words.old w.old }
    ensures kept_front { KeptFront out words.old words.new }
    ensures swept { (s : definition.Settings) (t : MessageGraph) (x : Store) → StandsFor s t out evidence.now x words.old w.old → Given s settings → Swept s t out evidence.now x (length t.nodes) words.new w.new }
{
    let nodes = word(words, 0);
    let edges = word(words, 1);
    let flags = out + (6 * edges + 1);
    for n in 0..nodes {
        if send_node(table, w, words, out, evidence, settings, n) {
            words[flags + n] = 1;
        }
    }
}

pub fn sweep(
    table: &LogTable,
    w: &mut [f32],
    words: &mut [u32],
    out: usize,
    evidence: &[f32],
    settings: Settings,
)
    requires some_standing { SomeStanding settings out evidence.now words.old w.old }
    ensures kept_front { KeptFront out words.old words.new }
    ensures stands_for { (s : definition.Settings) (t : MessageGraph) (x : Store) → StandsFor s t out evidence.now x words.old w.old → Given s settings → StandsFor s t out evidence.now (sweep s t x) words.new w.new }
{
    send_nodes(table, w, words, out, evidence, settings);
    let edges = word(words, 1);
    let l = word(words, out + 6 * edges);
    rotate(w, l);
}
