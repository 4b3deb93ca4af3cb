// The layers of the tree, one after the other in w, each node after node. A node is made in t, a range of its own, so that no range is read and
// written at once; t is zeros before and after.
ghost use Rattle.std.specs.Prelude.{◌≡◌, ◌++◌, ◌+◌, ◌-◌, ◌*◌, ◌≤◌, ◌<◌, length, replicate, drop};
ghost use Rattle.list_laws.specs.Part.{region};
ghost use Rattle.list_laws.specs.Put.{put};
ghost use Rattle.definition.specs.Floats.{zeroᶠ};
ghost use Rattle.definition.specs.Vectors.{normalize};
ghost use Rattle.definition.specs.ConvolutionTree.{convolve, count_layer, message_up, likelihoods_below};
ghost use Rattle.graph_laws.specs.Flat.{flat};
ghost use Rattle.convolution_tree.specs.Nodes.{nodes};

use crate::convolution::{convolve, correlate, hand_over};

// The distribution of the sum of two nodes of m floats, at `at` and behind it.
fn create_count_node(out: &mut [f32], w: &[f32], at: usize, m: usize)
    requires { (out.old ≡ replicate (m + m - 1) zeroᶠ) × (at + m + m ≤ length w.now) }
    ensures { out.new ≡ normalize (convolve (region w.now at m) (region w.now (at + m) m)) }
{
    let b = at + m;
    let e = b + m;
    convolve(out, &w[at..b], &w[b..e]);
    array_utils::normalize(out);
}

fn put_count_node(w: &mut [f32], t: &mut [f32], at: usize, m: usize, out: usize)
    requires { (t.old ≡ replicate (m + m - 1) zeroᶠ) × (at + m + m ≤ length w.old) × (out + (m + m - 1) ≤ length w.old) }
    ensures { (w.new ≡ put w.old out (normalize (convolve (region w.old at m) (region w.old (at + m) m)))) × (t.new ≡ replicate (m + m - 1) zeroᶠ) }
{
    create_count_node(t, w, at, m);
    let e = out + t.len();
    hand_over(&mut w[out..e], t);
}

// The layer above: a node for each two of the 2 * count nodes of m floats at `at`.
pub(crate) fn count_layer(
    w: &mut [f32],
    t: &mut [f32],
    at: usize,
    count: usize,
    m: usize,
    out: usize,
)
    requires { (t.old ≡ replicate (m + m - 1) zeroᶠ) × (at + 2 * (count * m) ≤ out) × (0 < m) × (out + count * (m + m - 1) ≤ length w.old) }
    ensures { (w.new ≡ put w.old out (flat (count_layer (nodes m (2 * count) (drop at w.old))))) × (t.new ≡ replicate (m + m - 1) zeroᶠ) }
{
    let mut a = at;
    let mut o = out;
    for _ in 0..count {
        put_count_node(w, t, a, m, o);
        a += m + m;
        o += m + m - 1;
    }
}

// The likelihood of a node, from the distribution of its sibling, m floats at `other`, and the likelihood of the node above, n floats at l.
fn message_up(out: &mut [f32], w: &[f32], other: usize, m: usize, l: usize, n: usize)
    requires { (out.old ≡ replicate (length out.old) zeroᶠ) × (other + m ≤ length w.now) × (l + n ≤ length w.now) × (m ≤ n) }
    ensures { out.new ≡ message_up (length out.old) (region w.now other m) (region w.now l n) }
{
    let b = other + m;
    let e = l + n;
    correlate(out, &w[other..b], &w[l..e]);
    array_utils::normalize(out);
}

// The likelihoods of two nodes of m floats in their place: each takes the other's distribution, which nobody needs any more.
fn put_likelihoods(w: &mut [f32], t: &mut [f32], l: usize, n: usize, at: usize, m: usize)
    requires { (t.old ≡ replicate (m + m) zeroᶠ) × (at + m + m ≤ length w.old) × (l + n ≤ length w.old) × (m ≤ n) }
    ensures { (w.new ≡ put w.old at (message_up m (region w.old (at + m) m) (region w.old l n) ++ message_up m (region w.old at m) (region w.old l n))) × (t.new ≡ replicate (m + m) zeroᶠ) }
{
    let b = at + m;
    let e = b + m;
    message_up(&mut t[..m], w, b, m, l, n);
    message_up(&mut t[m..], w, at, m, l, n);
    hand_over(&mut w[at..e], t);
}

// The likelihoods of 2 * count nodes of m floats at `at`, in their place, from those of the layer above, count times n floats at `above`.
pub(crate) fn likelihoods_below(
    w: &mut [f32],
    t: &mut [f32],
    above: usize,
    n: usize,
    at: usize,
    count: usize,
    m: usize,
)
    requires { (t.old ≡ replicate (m + m) zeroᶠ) × (at + 2 * (count * m) ≤ above) × (m ≤ n) × (above + count * n ≤ length w.old) }
    ensures { (w.new ≡ put w.old at (flat (likelihoods_below (nodes n count (drop above w.old)) (nodes m (2 * count) (drop at w.old))))) × (t.new ≡ replicate (m + m) zeroᶠ) }
{
    let mut l = above;
    let mut a = at;
    for _ in 0..count {
        put_likelihoods(w, t, l, n, a, m);
        l += n;
        a += m + m;
    }
}
