// One message computed and put in force (`single_message_update`): written into the messages in force and into the new ones.
ghost use Rattle.std.specs.Prelude.{◌≡◌, ◌+◌, ◌-◌, ◌≤◌, length, get_or};
ghost use Rattle.std.specs.Float.{nan};
ghost use Rattle.definition.specs.Vectors.{binary};
ghost use Rattle.definition.specs.Messages.{out_message_variable, out_message_factor, out_message};
ghost use Rattle.list_laws.specs.Part.{region};
ghost use Rattle.list_laws.specs.Put.{put};
ghost use Rattle.node.specs.Rows.{given};
ghost use Rattle.messages.specs.Pairs.{pairs};
ghost use Rattle.steps.specs.StepLog.{Along, begins_at, ends_at};
ghost use Rattle.messages.specs.Layout.{cut};
ghost use Rattle.messages.specs.State.{part_floats};
ghost use Rattle.steps.specs.StepSingle.{both, Holder, Sender};
ghost use Rattle.steps.specs.StepUpdate.{SingleReads, SingleAt};

use crate::log::row_len;
use crate::pending::end_of;
use array_utils::{LogTable, VariableMessage};
use factor_graph::kind::NodeKind;
use messages::{out_message_factor, out_message_variable};

fn write_both(w: &mut [f32], offsets: &[u32], d: usize, m: VariableMessage)
    requires { Along offsets.now w.old d }
    ensures { w.new ≡ both w.old offsets.now d (binary m.absent m.present) }
{
    let at = offsets[d] as usize;
    m.write(w, at);
    m.write(w, row_len(offsets) + at);
}

// What variable n sends to its neighbour at position i, along direction d.
pub fn update_variable(
    table: &LogTable,
    w: &mut [f32],
    firsts: &[u32],
    offsets: &[u32],
    n: usize,
    i: usize,
    d: usize,
    belief: VariableMessage,
)
    requires along { Along offsets.now w.old d × Holder firsts.now offsets.now n i }
    ensures { w.new ≡ both w.old offsets.now d (out_message_variable (binary belief.absent belief.present) (pairs (region w.old (begins_at firsts.now offsets.now n) (ends_at firsts.now offsets.now n - begins_at firsts.now offsets.now n))) i) }
{
    let begin = offsets[firsts[n] as usize] as usize;
    let end = offsets[firsts[n + 1] as usize] as usize;
    let m = out_message_variable(table, belief, &w[begin..end], i);
    write_both(w, offsets, d, m);
}

// To its input a factor sends what it sent before.
pub fn keep_message(w: &mut [f32], offsets: &[u32], d: usize)
    requires { Along offsets.now w.old d }
    ensures { w.new ≡ both w.old offsets.now d (region w.old (get_or offsets.now d 0) (get_or offsets.now (d + 1) 0 - get_or offsets.now d 0)) }
{
    let at = offsets[d] as usize;
    let end = offsets[d + 1] as usize;
    w.copy_within(at..end, row_len(offsets) + at);
}

// What a factor makes of its input's message, written from index `at` on.
fn factor_message(
    w: &mut [f32],
    at: usize,
    degree: u32,
    alpha: f32,
    beta: f32,
    regularised: bool,
    message: VariableMessage,
)
    requires { (degree ≤ 129) × (at + degree ≤ length w.old) }
    ensures { w.new ≡ put w.old at (out_message_factor (given alpha beta regularised) degree (binary message.absent message.present)) }
{
    let end = at + degree as usize;
    out_message_factor(&mut w[at..end], alpha, beta, regularised, message);
}

// From a factor to its grade or its tree, by its input's message, that along direction e.
pub fn update_factor(
    w: &mut [f32],
    offsets: &[u32],
    e: usize,
    d: usize,
    alpha: f32,
    beta: f32,
    regularised: bool,
)
    requires { Along offsets.now w.old d × Along offsets.now w.old e × Sender offsets.now d }
    ensures { w.new ≡ both w.old offsets.now d (out_message_factor (given alpha beta regularised) (get_or offsets.now (d + 1) 0 - get_or offsets.now d 0) (binary (get_or w.old (get_or offsets.now e 0) nan) (get_or w.old (get_or offsets.now e 0 + 1) nan))) }
{
    let message = VariableMessage::read(w, offsets[e] as usize);
    let at = offsets[d] as usize;
    let degree = offsets[d + 1] - offsets[d];
    factor_message(w, at, degree, alpha, beta, regularised, message);
    w.copy_within(at..at + degree as usize, row_len(offsets) + at);
}

// Along a direction whose start is no tree; the belief is that of its start, where that is a variable.
pub fn update_single(
    table: &LogTable,
    w: &mut [f32],
    kinds: &[u32],
    firsts: &[u32],
    starts: &[u32],
    outs: &[u32],
    offsets: &[u32],
    d: usize,
    belief: VariableMessage,
    alpha: f32,
    beta: f32,
    regularised: bool,
)
    requires single_reads { SingleReads kinds.now firsts.now starts.now outs.now d }
    requires single_at { SingleAt kinds.now firsts.now starts.now outs.now offsets.now w.old d (binary belief.absent belief.present) alpha beta regularised }
    ensures { (p : SingleAt kinds.now firsts.now starts.now outs.now offsets.now w.old d (binary belief.absent belief.present) alpha beta regularised) → w.new ≡ part_floats (put p.r_in (get_or offsets.now d 0) (out_message p.s p.t (cut p.t.directions p.r_in) d)) (put p.r_new (get_or offsets.now d 0) (out_message p.s p.t (cut p.t.directions p.r_in) d)) p.r_log p.r_build p.pending p.rest }
{
    let n = starts[d] as usize;
    let first = firsts[n] as usize;
    if kinds[n] != NodeKind::Factor as u32 {
        update_variable(
            table,
            w,
            firsts,
            offsets,
            n,
            outs[d] as usize - first,
            d,
            belief,
        );
        return;
    }
    if kinds[end_of(starts, outs, d)] == NodeKind::Input as u32 {
        keep_message(w, offsets, d);
        return;
    }
    update_factor(w, offsets, first + 1, d, alpha, beta, regularised);
}
