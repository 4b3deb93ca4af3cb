// What a convolution tree sends in a sweep: what it sent before, or what it makes anew of its incoming messages.
ghost use Rattle.std.specs.Prelude.{◌≡◌, ◌+◌, ◌-◌, ◌*◌, ◌≤◌, length, get_or};
ghost use Rattle.list_laws.specs.Part.{region};
ghost use Rattle.list_laws.specs.Put.{put};
ghost use Rattle.sweeps.specs.SweepBuild.{Building, built_row};
ghost use Rattle.sweeps.specs.SweepRebuild.{Rebuilding, rebuilt_sent, needs_build, tree_sent};
ghost use Rattle.sweeps.specs.SweepCopies.{Directed, kept_sent, Scattering, scattered};

use array_utils::LogTable;
use messages::directions::word;
use messages::needs_rebuild;

// A tree that is not built anew sends along each direction what is in force there.
pub(crate) fn keep_sent(
    w: &mut [f32],
    outs: &[u32],
    offsets: &[u32],
    l: usize,
    first: usize,
    k: usize,
)
    requires { Directed outs.now offsets.now l first k (length w.old) }
    ensures { w.new ≡ kept_sent outs.now offsets.now l first w.old k }
{
    for i in 0..k {
        let d = word(outs, first + i);
        let at = word(offsets, d);
        w.copy_within(at..word(offsets, d + 1), l + at);
    }
}

// The tree's messages stand from `base` on, one for each position, as long as those that it holds there; each goes to its place in the new row.
pub(crate) fn scatter(
    w: &mut [f32],
    outs: &[u32],
    offsets: &[u32],
    l: usize,
    first: usize,
    k: usize,
    base: usize,
)
    requires { Scattering outs.now offsets.now l first k base (length w.old) }
    ensures { w.new ≡ scattered outs.now offsets.now l first base w.old k }
{
    let start = word(offsets, first);
    for i in 0..k {
        let from = word(offsets, first + i) - start;
        let end = word(offsets, first + i + 1) - start;
        let at = word(offsets, word(outs, first + i));
        w.copy_within(base + from..base + end, l + at);
    }
}

// In scratch: what a tree over n grades sends, of the messages that stand at `from`. The zeros behind stay.
pub(crate) fn build_tree(w: &mut [f32], from: usize, n: usize, scratch: usize)
    requires { Building w.old from n scratch }
    ensures { w.new ≡ put w.old scratch (built_row n (region w.old from (3 * n + 1))) }
{
    let m = 3 * n + 1;
    let end = scratch + m + convolution_tree::scratch_len(n);
    w.copy_within(from..from + m, scratch);
    convolution_tree::tree_messages(&mut w[scratch..end], n);
}

// The tree of a node with k neighbours is built anew: what it sends goes into the new row, and what it was built of into the row of builds, the fourth.
pub(crate) fn rebuild_tree(
    w: &mut [f32],
    outs: &[u32],
    offsets: &[u32],
    l: usize,
    first: usize,
    k: usize,
    scratch: usize,
)
    requires { Rebuilding outs.now offsets.now l first k scratch w.old }
    ensures { w.new ≡ rebuilt_sent outs.now offsets.now l first k w.old }
{
    let from = word(offsets, first);
    let n = k - 1;
    let m = 3 * n + 1;
    build_tree(w, from, n, scratch);
    scatter(w, outs, offsets, l, first, k, scratch);
    w[scratch..scratch + m].fill(0.0);
    w.copy_within(from..from + m, l + l + l + from);
}

// Whether the tree over n grades that holds the messages at `from` is built anew: unless it was built before, of what the fourth row says, and little changed.
pub(crate) fn needs_build(
    table: &LogTable,
    tolerance: f32,
    w: &[f32],
    flag: u32,
    l: usize,
    from: usize,
    n: usize,
) -> bool
    requires n_bound { (from + (3 * n + 1) ≤ l) × (l + l + l + l ≤ length w.now) }
    ensures { result ≡ needs_build tolerance flag l from n w.now }
{
    if flag == 0 {
        return true;
    }
    let m = 3 * n + 1;
    let end = from + m;
    let old = l + l + l + from;
    let old_end = old + m;
    needs_rebuild(table, tolerance, &w[from..end], &w[old..old_end], n)
}

// A tree with k neighbours, its positions from `first` on. The flag says whether it was built before; whether it was built anew.
pub fn send_tree(
    table: &LogTable,
    tolerance: f32,
    w: &mut [f32],
    outs: &[u32],
    offsets: &[u32],
    l: usize,
    flag: u32,
    first: usize,
    k: usize,
    scratch: usize,
) -> bool
    requires directed { Directed outs.now offsets.now l first k (length w.old) × Rebuilding outs.now offsets.now l first k scratch w.old }
    ensures value { result ≡ needs_build tolerance flag l (get_or offsets.now first 0) (k - 1) w.old }
    ensures w_after { w.new ≡ tree_sent result outs.now offsets.now l first k w.old }
{
    let from = word(offsets, first);
    if needs_build(table, tolerance, w, flag, l, from, k - 1) {
        rebuild_tree(w, outs, offsets, l, first, k, scratch);
        return true;
    }
    keep_sent(w, outs, offsets, l, first, k);
    false
}
