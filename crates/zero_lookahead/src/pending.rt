// The residuals that are pending and the queue of what waits, in a part's words, after a step along one direction: `compute_total_residuals`, `compute_priority`.
ghost use Rattle.std.specs.Prelude.{◌≡◌, ◌*◌, ◌≤◌, ◌<◌, T, length, get_or, set};
ghost use Rattle.std.proofs.Math.Option.{none, some};
ghost use Rattle.definition.specs.Floats.{◌⊕◌, zeroᶠ};
ghost use Rattle.definition.specs.Run.{add_pending};
ghost use Rattle.float_laws.specs.Rounded.{clear};
ghost use Rattle.list_laws.specs.Part.{region};
ghost use Rattle.messages.specs.DirectionsRead.{firsts_row, starts_row, outs_row, RecordFits};
ghost use Rattle.messages.specs.LayoutWords.{others_to};
ghost use Rattle.steps.specs.StepPending.{OneKept, AllKept};
ghost use Rattle.zero_lookahead.specs.Part.{leaves_in, queue_at};
ghost use Rattle.zero_lookahead.specs.StepAdded.{Adding, Added, AddingAlong, AddedAlong};
ghost use Rattle.zero_lookahead.specs.StepReads.{SomePart};
ghost use Rattle.zero_lookahead.specs.StepQueue.{WaitingAt, OnlyAt, OthersAt};

use messages::directions::{firsts_row, offsets_row, outs_row, starts_row, word};
use steps::log::row_len;
use steps::pending::{add_to_pending, clear_pending};

// Nothing is pending for direction d any more, and it waits no more. The queue's words stand from `queue` on.
fn clear_at(pending: &mut [f32], words: &mut [u32], queue: usize, leaves: usize, d: usize)
    requires waiting_at { WaitingAt queue leaves pending.old words.old }
    requires d_in_bounds { d < length pending.old }
    ensures waiting_at_2 { WaitingAt queue leaves pending.new words.new }
    ensures only_at { OnlyAt queue (2 * leaves) words.old words.new }
    ensures pending_after { pending.new ≡ set pending.old d zeroᶠ }
    ensures one_kept { OneKept leaves (length pending.old) d none (region words.old queue (2 * leaves)) (region words.new queue (2 * leaves)) }
{
    let end = queue + 2 * leaves;
    clear_pending(pending, &mut words[queue..end], leaves, d);
}

// The residual is pending for direction d too.
fn add_at(pending: &mut [f32], words: &mut [u32], queue: usize, leaves: usize, d: usize, r: f32)
    requires waiting_at { WaitingAt queue leaves pending.old words.old }
    requires d_in_bounds { (d < length pending.old) × T (clear r) }
    ensures waiting_at_2 { WaitingAt queue leaves pending.new words.new }
    ensures only_at { OnlyAt queue (2 * leaves) words.old words.new }
    ensures pending_after { pending.new ≡ set pending.old d (get_or pending.old d zeroᶠ ⊕ r) }
    ensures one_kept { OneKept leaves (length pending.old) d (some (get_or pending.old d zeroᶠ ⊕ r)) (region words.old queue (2 * leaves)) (region words.new queue (2 * leaves)) }
{
    let end = queue + 2 * leaves;
    add_to_pending(pending, &mut words[queue..end], leaves, d, r);
}

// The residual of direction d is pending for each direction at the positions from `from` on but for that at d: every other one by which the end of d sends.
fn add_to_others(
    pending: &mut [f32],
    words: &mut [u32],
    outs: usize,
    queue: usize,
    leaves: usize,
    from: usize,
    to: usize,
    d: usize,
    r: f32,
)
    requires waiting_at { WaitingAt queue leaves pending.old words.old }
    requires others_at { OthersAt words.old outs queue from to d (length pending.old) × T (clear r) }
    ensures waiting_at_2 { WaitingAt queue leaves pending.new words.new }
    ensures only_at { OnlyAt queue (2 * leaves) words.old words.new }
    ensures pending_after { pending.new ≡ add_pending r (others_to (region words.old outs (length pending.old)) from d to) pending.old }
    ensures all_kept { AllKept leaves (length pending.old) pending.new (others_to (region words.old outs (length pending.old)) from d to) (region words.old queue (2 * leaves)) (region words.new queue (2 * leaves)) }
{
    for k in from..to {
        if k != d {
            let o = word(words, outs + k);
            add_at(pending, words, queue, leaves, o, r);
        }
    }
}

// Where direction d starts.
pub(crate) fn start_at(words: &[u32], out: usize, d: usize) -> usize
    requires { SomePart out words.now × (d < 2 * get_or words.now 1 0) }
    ensures { (result ≡ get_or (starts_row words.now 0 out) d 0) × (result < 4294967296) }
{
    word(starts_row(words, 0, out), d)
}

// Where direction d ends.
pub(crate) fn end_at(words: &[u32], out: usize, d: usize) -> usize
    requires { SomePart out words.now × (d < 2 * get_or words.now 1 0) }
    ensures { (result ≡ get_or (starts_row words.now 0 out) (get_or (outs_row words.now 0 out) d 0) 0) × (result < 4294967296) }
{
    let back = word(outs_row(words, 0, out), d);
    word(starts_row(words, 0, out), back)
}

// The first direction that ends at node n.
fn first_of(words: &[u32], n: usize) -> usize
    requires { RecordFits words.now 0 × (n < length (firsts_row words.now 0)) }
    ensures { result ≡ get_or (firsts_row words.now 0) n 0 }
{
    let firsts = firsts_row(words, 0);
    word(firsts, n)
}

// How many leaves the queue has.
fn leaves_in(words: &[u32]) -> usize
    requires { (1 < length words.now) × (2 * get_or words.now 1 0 ≤ 2147483648) }
    ensures { result ≡ leaves_in words.now }
{
    priorities::leaves_for(2 * word(words, 1))
}

// Where the queue begins.
fn queue_at(words: &[u32], out: usize) -> usize
    requires { SomePart out words.now }
    ensures { result ≡ queue_at words.now out }
{
    let edges = word(words, 1);
    out + (6 * edges + 1) + word(words, 0)
}

// After a step along direction d with residual r.
fn add_residual(pending: &mut [f32], words: &mut [u32], out: usize, d: usize, r: f32)
    requires { Adding out d r pending.old words.old }
    ensures { Added out d r pending.old words.old pending.new words.new }
{
    let leaves = leaves_in(words);
    let queue = queue_at(words, out);
    let outs = out + 2 * word(words, 1);
    let end = end_at(words, out, d);
    let from = first_of(words, end);
    let to = first_of(words, end + 1);
    clear_at(pending, words, queue, leaves, d);
    add_to_others(pending, words, outs, queue, leaves, from, to, d, r);
}

// The same in the part's floats, where what is pending stands behind the four rows.
pub(crate) fn add_along(w: &mut [f32], words: &mut [u32], out: usize, d: usize, r: f32)
    requires { AddingAlong out d r words.old w.old }
    ensures { AddedAlong out d r words.old w.old words.new w.new }
{
    let offsets = offsets_row(words, 0, out);
    let from = 4 * row_len(offsets);
    let to = from + 2 * word(words, 1);
    add_residual(&mut w[from..to], words, out, d, r);
}
