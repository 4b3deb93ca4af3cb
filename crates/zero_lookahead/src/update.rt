// The message of a step, put in force (`single_message_update`), or all messages of a tree.
ghost use Rattle.std.specs.Prelude.{◌≡◌, List, ℕ, ◌+◌, ◌*◌, ◌<◌, Float, length, get_or};
ghost use Rattle.definition.specs.Settings as definition;
ghost use Rattle.definition.specs.Vectors.{binary};
ghost use Rattle.definition.specs.Directions.{MessageGraph, node_at};
ghost use Rattle.definition.specs.Messages.{initial_belief};
ghost use Rattle.definition.specs.Sweeps.{Store};
ghost use Rattle.definition.specs.Run.{update_single, update_tree};
ghost use Rattle.steps.specs.StepChanged.{changed_from};
ghost use Rattle.steps.specs.StepLog.{ChangedBelow};
ghost use Rattle.sweeps.specs.SweepRows.{IsVariable};
ghost use Rattle.zero_lookahead.specs.Part.{Given, PartWords, SomeStanding, KeptFront};
ghost use Rattle.zero_lookahead.specs.StepMessage.{Updated};
ghost use Rattle.zero_lookahead.specs.StepReads.{SomePart};
ghost use Rattle.zero_lookahead.specs.StepSingle.{SomeSender, SingleAlong};
ghost use Rattle.zero_lookahead.specs.StepStands.{SomeStands, StandsWith, taken_store};
ghost use Rattle.zero_lookahead.specs.StepTree.{SomeTree, flagged};

use crate::belief::initial_belief;
use crate::pending::{end_at, start_at};
use crate::settings::Settings;
use crate::sweep::send_from_tree;
use array_utils::{LogTable, VariableMessage};
use factor_graph::kind::NodeKind;
use messages::directions::{firsts_row, kinds_row, offsets_row, outs_row, starts_row, word};
use steps::log::{Changed, copy_neighbours};
use steps::single::update_single;

// The belief that a variable starts with; a factor has none.
fn belief_of(words: &[u32], evidence: &[f32], prior: f32, n: usize) -> VariableMessage
    requires { SomeSender words.now evidence.now n }
    ensures { (s : definition.Settings) (t : MessageGraph) (out : ℕ) → PartWords s t out evidence.now words.now → s.prior ≡ prior → n < length t.nodes → IsVariable (node_at t n).kind → binary result.absent result.present ≡ initial_belief s (node_at t n).kind }
{
    if word(words, 2 + n) == NodeKind::Factor as usize {
        return VariableMessage {
            absent: 0.0,
            present: 0.0,
        };
    }
    initial_belief(words, evidence, prior, n)
}

// Along direction d, whose start n is no tree.
fn send_single(
    table: &LogTable,
    w: &mut [f32],
    words: &[u32],
    out: usize,
    evidence: &[f32],
    settings: Settings,
    n: usize,
    d: usize,
)
    requires some_standing { SomeStanding settings out evidence.now words.now w.old × SingleAlong out d n words.now }
    ensures { (s : definition.Settings) (t : MessageGraph) (x : Store) (pending : List Float) (queue : List ℕ) → StandsWith s t out evidence.now x pending queue words.now w.old → Given s settings → StandsWith s t out evidence.now (update_single s t d x.msg_in_log x).store pending queue words.now w.new }
{
    let belief = belief_of(words, evidence, settings.prior, n);
    let kinds = kinds_row(words, 0);
    let firsts = firsts_row(words, 0);
    let starts = starts_row(words, 0, out);
    let outs = outs_row(words, 0, out);
    let offsets = offsets_row(words, 0, out);
    update_single(
        table,
        w,
        kinds,
        firsts,
        starts,
        outs,
        offsets,
        d,
        belief,
        settings.alpha,
        settings.beta,
        settings.regularised,
    );
}

// Node n's flag, set where its tree was built anew.
fn mark_built(words: &mut [u32], out: usize, n: usize, anew: bool)
    requires { SomePart out words.old × (n < get_or words.old 0 0) }
    ensures { words.new ≡ flagged anew out n words.old }
{
    if anew {
        let at = out + (6 * word(words, 1) + 1) + n;
        words[at] = 1;
    }
}

// What the neighbours of node n hold, taken over from the new messages.
fn take_around(w: &mut [f32], words: &[u32], out: usize, n: usize)
    requires { SomeStands out words.now w.old × (n < get_or words.now 0 0) }
    ensures { (s : definition.Settings) (t : MessageGraph) (evidence : List Float) (x : Store) (pending : List Float) (queue : List ℕ) → StandsWith s t out evidence x pending queue words.now w.old → StandsWith s t out evidence (taken_store t n x) pending queue words.now w.new }
{
    let firsts = firsts_row(words, 0);
    let starts = starts_row(words, 0, out);
    let offsets = offsets_row(words, 0, out);
    copy_neighbours(w, firsts, starts, offsets, n);
}

// The tree at node n sends all its messages.
fn update_tree(
    table: &LogTable,
    w: &mut [f32],
    words: &mut [u32],
    out: usize,
    tolerance: f32,
    n: usize,
)
    requires some_tree { SomeTree tolerance out n words.old w.old }
    ensures kept_front { KeptFront out words.old words.new }
    ensures stands_with { (s : definition.Settings) (t : MessageGraph) (evidence : List Float) (x : Store) (pending : List Float) (queue : List ℕ) → StandsWith s t out evidence x pending queue words.old w.old → s.tolerance ≡ tolerance → StandsWith s t out evidence (update_tree s t n x.msg_in_log x).store pending queue words.new w.new }
{
    let anew = send_from_tree(table, w, words, out, tolerance, n);
    mark_built(words, out, n, anew);
    take_around(w, words, out, n);
}

// The message of a step along direction d, by its start's kind. Which nodes changed.
pub(crate) fn update_message(
    table: &LogTable,
    w: &mut [f32],
    words: &mut [u32],
    out: usize,
    evidence: &[f32],
    settings: Settings,
    d: usize,
) -> Changed
    requires some_standing { SomeStanding settings out evidence.now words.old w.old × (d < 2 * get_or words.old 1 0) }
    ensures kept_front { KeptFront out words.old words.new × ChangedBelow (changed_from result) (get_or words.old 0 0 + 1) }
    ensures updated { (s : definition.Settings) (t : MessageGraph) (x : Store) (pending : List Float) (queue : List ℕ) → StandsWith s t out evidence.now x pending queue words.old w.old → Given s settings → Updated s t out evidence.now x d pending queue words.new w.new (changed_from result) }
{
    let n = start_at(words, out, d);
    let end = end_at(words, out, d);
    if word(words, 2 + n) == NodeKind::Tree as usize {
        update_tree(table, w, words, out, settings.tolerance, n);
        return Changed::Around(n as u32);
    }
    send_single(table, w, words, out, evidence, settings, n, d);
    Changed::One(end as u32)
}
