// What a variable and a factor send in a sweep, `compute_out_messages` of the Rust: into the new row of messages, which begins at float l, from the row in
// force, at the start.
ghost use Rattle.std.specs.Prelude.{◌≡◌, ◌<◌, length, get_or};
ghost use Rattle.definition.specs.Vectors.{binary};
ghost use Rattle.messages.specs.Logarithms.{Wide};
ghost use Rattle.sweeps.specs.Sweep.{Pairing, each_sent, variable_sent, Factoring, factor_sent};

use array_utils::{LogTable, VariableMessage};
use messages::directions::word;
use messages::{logs, out_from_sums, out_message_factor};

// From the sums over the k messages that stand from `from` on: each leaves its receiver's own out.
fn send_each(
    table: &LogTable,
    sum: VariableMessage,
    prior: VariableMessage,
    w: &mut [f32],
    outs: &[u32],
    offsets: &[u32],
    l: usize,
    from: usize,
    first: usize,
    k: usize,
)
    requires wide { Wide 10000 sum.absent × Wide 10000 sum.present × Wide 91 prior.absent × Wide 91 prior.present }
    requires pairing { Pairing outs.now offsets.now l from first k (length w.old) }
    ensures { w.new ≡ each_sent (binary sum.absent sum.present) (binary prior.absent prior.present) outs.now offsets.now l from first k w.old k }
{
    for i in 0..k {
        let m = VariableMessage::read(w, from + 2 * i);
        let r = out_from_sums(table, sum, prior, m);
        r.write(w, l + word(offsets, word(outs, first + i)));
    }
}

// A node with k neighbours, its positions from `first` on. With one neighbour it sends its belief.
pub fn send_variable(
    table: &LogTable,
    belief: VariableMessage,
    w: &mut [f32],
    outs: &[u32],
    offsets: &[u32],
    l: usize,
    first: usize,
    k: usize,
)
    requires first_in_bounds { (first < length offsets.now) × Pairing outs.now offsets.now l (get_or offsets.now first 0) first k (length w.old) }
    ensures { w.new ≡ variable_sent (binary belief.absent belief.present) outs.now offsets.now l first k w.old }
{
    let from = word(offsets, first);
    if k == 1 {
        belief.write(w, l + word(offsets, word(outs, first)));
        return;
    }
    let end = from + 2 * k;
    let sum = array_utils::sum_logs_batched(table, &w[from..end]);
    let prior = logs(table, belief);
    send_each(table, sum, prior, w, outs, offsets, l, from, first, k);
}

// A factor, its positions from `first` on: to its grade or tree what it makes of its input's message, and to its input what it sent before.
pub fn send_factor(
    w: &mut [f32],
    outs: &[u32],
    offsets: &[u32],
    l: usize,
    first: usize,
    alpha: f32,
    beta: f32,
    regularised: bool,
)
    requires { Factoring outs.now offsets.now l first (length w.old) }
    ensures { w.new ≡ factor_sent alpha beta regularised outs.now offsets.now l first w.old }
{
    let degree = offsets[first + 1] - offsets[first];
    let held = word(offsets, first + 1);
    let message = VariableMessage::read(w, held);
    let to = l + word(offsets, word(outs, first));
    let end = to + degree as usize;
    out_message_factor(&mut w[to..end], alpha, beta, regularised, message);
    let back = word(offsets, word(outs, first + 1));
    VariableMessage::read(w, back).write(w, l + back);
}
