// `initialize_messages`: what stands before anything is sent, and what the inputs, the factors and the grades send first, each into the one row of messages.
ghost use Rattle.std.specs.Prelude.{◌≡◌, List, map, ℕ, ◌+◌, ◌-◌, ◌<◌, length, get_or};
ghost use Rattle.list_laws.specs.Part.{region};
ghost use Rattle.list_laws.specs.Put.{put};
ghost use Rattle.definition.specs.Settings.{Settings};
ghost use Rattle.definition.specs.Vectors.{binary};
ghost use Rattle.definition.specs.Directions.{Direction, MessageGraph, node_at, messages_in, set_messages};
ghost use Rattle.definition.specs.Messages.{out_message_factor};
ghost use Rattle.definition.specs.Sweeps.{initial_message, leave_one_out, opening_factor, opening_grade};
ghost use Rattle.node.specs.Rows.{given};
ghost use Rattle.graph_laws.specs.MessageLengths.{AllBinary};
ghost use Rattle.messages.specs.Layout.{cut, kind_code};
ghost use Rattle.messages.specs.Logarithms.{Wide};
ghost use Rattle.opening.specs.OpenRows.{MessageRow, SomeMessageRow, SendRows, SomeSendRows, FactorRows, SomeFactorRows, FactorSettings, SendRoom, SomeGradeRows};
ghost use Rattle.opening.specs.OpenSends.{initial_entry};

use array_utils::{LogTable, VariableMessage};
use factor_graph::kind::NodeKind;
use messages::directions::word;
use messages::{leave_one_out, log_total, out_message_factor};

fn initial_entry(len: usize) -> f32
    ensures { result ≡ initial_entry len }
{
    if 2 < len { 1.0 } else { 0.5 }
}

// Before anything is sent every message is of halves, or of ones where it has more than two entries.
pub(crate) fn fill_initial(row: &mut [f32], offsets: &[u32])
    requires { SomeMessageRow offsets.now row.old }
    ensures { (ds : List Direction) → MessageRow ds offsets.now row.old → cut ds row.new ≡ map initial_message ds }
{
    for d in 0..offsets.len() - 1 {
        let from = word(offsets, d);
        let to = word(offsets, d + 1);
        row[from..to].fill(initial_entry(to - from));
    }
}

// The same message of two floats along each direction by which node n sends.
pub(crate) fn send_same(
    row: &mut [f32],
    firsts: &[u32],
    outs: &[u32],
    offsets: &[u32],
    n: usize,
    message: VariableMessage,
)
    requires { SomeSendRows firsts.now outs.now offsets.now row.old n }
    ensures { (s : Settings) (t : MessageGraph) → SendRows s t firsts.now outs.now offsets.now row.old → n < length t.nodes → AllBinary t (node_at t n).outgoing → cut t.directions row.new ≡ set_messages (node_at t n).outgoing (map (λ (o : ℕ). binary message.absent message.present) (node_at t n).outgoing) (cut t.directions row.old) }
{
    for k in word(firsts, n)..word(firsts, n + 1) {
        message.write(row, word(offsets, word(outs, k)));
    }
}

// From the input's message, along direction inn, to what stands along direction out.
fn send_factor(
    row: &mut [f32],
    offsets: &[u32],
    out: usize,
    inn: usize,
    alpha: f32,
    beta: f32,
    regularised: bool,
)
    requires { SendRoom offsets.now row.old out inn }
    ensures { row.new ≡ put row.old (get_or offsets.now out 0) (out_message_factor (given alpha beta regularised) (get_or offsets.now (out + 1) 0 - get_or offsets.now out 0) (region row.old (get_or offsets.now inn 0) 2)) }
{
    let from = word(offsets, out);
    let to = word(offsets, out + 1);
    let message = VariableMessage::read(row, word(offsets, inn));
    out_message_factor(&mut row[from..to], alpha, beta, regularised, message);
}

// A factor sends to its first neighbour, unless that is its input.
pub(crate) fn open_factor(
    row: &mut [f32],
    kinds: &[u32],
    firsts: &[u32],
    starts: &[u32],
    outs: &[u32],
    offsets: &[u32],
    n: usize,
    alpha: f32,
    beta: f32,
    regularised: bool,
)
    requires { SomeFactorRows kinds.now firsts.now starts.now outs.now offsets.now row.old n }
    ensures { (s : Settings) (t : MessageGraph) → FactorRows s t kinds.now firsts.now starts.now outs.now offsets.now row.old → n < length t.nodes → kind_code (node_at t n).kind ≡ 1 → FactorSettings s alpha beta regularised → cut t.directions row.new ≡ set_messages (node_at t n).outgoing (opening_factor s t (node_at t n) (cut t.directions row.old)) (cut t.directions row.old) }
{
    let first = word(firsts, n);
    if word(firsts, n + 1) <= first {
        return;
    }
    if word(kinds, word(starts, first)) == NodeKind::Input as usize {
        return;
    }
    let out = word(outs, first);
    send_factor(row, offsets, out, first + 1, alpha, beta, regularised);
}

// Each message leaves the receiver's own out of the total. What node n holds stays as it is while it sends.
fn send_left_out(
    table: &LogTable,
    row: &mut [f32],
    firsts: &[u32],
    outs: &[u32],
    offsets: &[u32],
    n: usize,
    total: VariableMessage,
)
    requires some_send_rows { SomeSendRows firsts.now outs.now offsets.now row.old n }
    requires wide { Wide 100000 total.absent × Wide 100000 total.present }
    ensures { (s : Settings) (t : MessageGraph) → SendRows s t firsts.now outs.now offsets.now row.old → n < length t.nodes → kind_code (node_at t n).kind ≡ 0 → cut t.directions row.new ≡ set_messages (node_at t n).outgoing (map (leave_one_out total.absent total.present) (messages_in (node_at t n) (cut t.directions row.old))) (cut t.directions row.old) }
{
    for k in word(firsts, n)..word(firsts, n + 1) {
        let own = VariableMessage::read(row, word(offsets, k));
        let message = leave_one_out(table, total, own);
        message.write(row, word(offsets, word(outs, k)));
    }
}

// A grade with one neighbour sends its belief.
pub(crate) fn open_grade(
    table: &LogTable,
    row: &mut [f32],
    firsts: &[u32],
    outs: &[u32],
    offsets: &[u32],
    n: usize,
    prior: f32,
)
    requires some_grade_rows { SomeGradeRows firsts.now outs.now offsets.now row.old n }
    ensures { (s : Settings) (t : MessageGraph) → SendRows s t firsts.now outs.now offsets.now row.old → n < length t.nodes → kind_code (node_at t n).kind ≡ 0 → s.prior ≡ prior → cut t.directions row.new ≡ set_messages (node_at t n).outgoing (opening_grade s (node_at t n) (cut t.directions row.old)) (cut t.directions row.old) }
{
    let belief = VariableMessage::from_prior(prior);
    let first = word(firsts, n);
    let end = word(firsts, n + 1);
    if end <= first + 1 {
        send_same(row, firsts, outs, offsets, n, belief);
        return;
    }
    let from = word(offsets, first);
    let to = word(offsets, end);
    let total = log_total(table, belief, &row[from..to]);
    send_left_out(table, row, firsts, outs, offsets, n, total);
}
