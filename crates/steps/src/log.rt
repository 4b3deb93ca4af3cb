// Messages copied from one message set to another: all of them, those that a node holds, those that a node's neighbours hold.
ghost use Rattle.std.specs.Prelude.{◌≡◌, ℕ, ◌+◌, ◌-◌, ◌<◌, List, length};
ghost use Rattle.definition.specs.Messages.{residual};
ghost use Rattle.list_laws.specs.Part.{region};
ghost use Rattle.list_laws.specs.Put.{put};
ghost use Rattle.steps.specs.StepFloats.{Apart};
ghost use Rattle.steps.specs.StepLog.{Words, NodeIn, total, begins_at, ends_at, around_copied, PartAt, ChangedBelow, logged, taken, Along};
ghost use Rattle.messages.specs.Layout.{cut};
ghost use Rattle.messages.specs.State.{part_floats};
ghost use Rattle.steps.specs.StepChanged.{changed_from};

use array_utils::LogTable;
use messages::residual;

// The nodes whose messages the next step copies into the log (`prev_changed`): all, one, or the neighbours of a tree.
#[derive(Clone, Copy)]
pub enum Changed {
    All,
    One(u32),
    Around(u32),
}

// A range of the floats, copied to another that lies apart from it. std's `copy_within` begins at the end where it copies up, which takes longer on a
// node of many neighbours.
fn copy_range(w: &mut [f32], from: usize, to: usize, n: usize)
    requires { Apart from to n (length w.old) }
    ensures { w.new ≡ put w.old to (region w.old from n) }
{
    for i in 0..n {
        w[to + i] = w[from + i];
    }
}

// All that node n holds in the row at `from`, copied to the row at `to`.
fn copy_node(w: &mut [f32], firsts: &[u32], offsets: &[u32], from: usize, to: usize, n: usize)
    requires node_in { NodeIn firsts.now offsets.now n }
    requires apart { Apart from to (total offsets.now) (length w.old) }
    ensures { w.new ≡ put w.old (to + begins_at firsts.now offsets.now n) (region w.old (from + begins_at firsts.now offsets.now n) (ends_at firsts.now offsets.now n - begins_at firsts.now offsets.now n)) }
{
    let begin = offsets[firsts[n] as usize] as usize;
    let end = offsets[firsts[n + 1] as usize] as usize;
    copy_range(w, from + begin, to + begin, end - begin);
}

// All that the neighbours of node n hold, copied likewise.
fn copy_around(
    w: &mut [f32],
    firsts: &[u32],
    starts: &[u32],
    offsets: &[u32],
    from: usize,
    to: usize,
    n: usize,
)
    requires words { Words firsts.now starts.now offsets.now × (n + 1 < length firsts.now) }
    requires apart { Apart from to (total offsets.now) (length w.old) }
    ensures { (g : Words firsts.now starts.now offsets.now) → w.new ≡ around_copied g.graph w.old from to n }
{
    let first = firsts[n] as usize;
    let end = firsts[n + 1] as usize;
    for start in &starts[first..end] {
        copy_node(w, firsts, offsets, from, to, *start as usize);
    }
}

// How many floats a row has.
pub fn row_len(offsets: &[u32]) -> usize
    requires { 0 < length offsets.now }
    ensures { result ≡ total offsets.now }
{
    offsets[offsets.len() - 1] as usize
}

// The messages in force of the nodes that changed, copied into the log.
pub fn update_log(w: &mut [f32], firsts: &[u32], starts: &[u32], offsets: &[u32], changed: Changed)
    requires { PartAt firsts.now starts.now offsets.now w.old × ChangedBelow (changed_from changed) (length firsts.now) }
    ensures { (p : PartAt firsts.now starts.now offsets.now w.old) → w.new ≡ part_floats p.r_in p.r_new (logged p.words.graph (changed_from changed) p.r_in p.r_log) p.r_build p.pending p.rest }
{
    let len = row_len(offsets);
    match changed {
        Changed::All => w.copy_within(0..len, 2 * len),
        Changed::One(n) => copy_node(w, firsts, offsets, 0, 2 * len, n as usize),
        Changed::Around(n) => copy_around(w, firsts, starts, offsets, 0, 2 * len, n as usize),
    }
}

// After a tree's step: all that its neighbours hold, copied from the new messages to those in force, older entries included.
pub fn copy_neighbours(w: &mut [f32], firsts: &[u32], starts: &[u32], offsets: &[u32], n: usize)
    requires { PartAt firsts.now starts.now offsets.now w.old × (n + 1 < length firsts.now) }
    ensures { (p : PartAt firsts.now starts.now offsets.now w.old) → w.new ≡ part_floats (taken p.words.graph n p.r_new p.r_in) p.r_new p.r_log p.r_build p.pending p.rest }
{
    copy_around(w, firsts, starts, offsets, row_len(offsets), 0, n);
}

// By how much the message in force along direction d differs from the logged one.
pub fn residual_at(table: &LogTable, w: &[f32], offsets: &[u32], d: usize) -> f32
    requires along { Along offsets.now w.now d }
    ensures { (firsts starts : List ℕ) (p : PartAt firsts starts offsets.now w.now) → result ≡ residual p.words.graph (cut p.words.graph.directions p.r_in) (cut p.words.graph.directions p.r_log) d }
{
    let log = 2 * row_len(offsets);
    let begin = offsets[d] as usize;
    let end = offsets[d + 1] as usize;
    residual(table, &w[begin..end], &w[log + begin..log + end])
}
