// The tree: up to the root, down to the leaves, and what it sends.
ghost use Rattle.std.specs.Prelude.{◌≡◌, ◌++◌, ◌+◌, ◌-◌, ◌*◌, ◌^◌, ◌≤◌, ◌<◌, length, replicate, take, drop};
ghost use Rattle.list_laws.specs.Part.{region};
ghost use Rattle.list_laws.specs.Put.{put};
ghost use Rattle.definition.specs.Floats.{zeroᶠ};
ghost use Rattle.definition.specs.Vectors.{avoid_underflow_all};
ghost use Rattle.definition.specs.ConvolutionTree.{count_layer, log_length, tree_messages};
ghost use Rattle.graph_laws.specs.Flat.{flat};
ghost use Rattle.convolution_tree.specs.Nodes.{nodes};
ghost use Rattle.convolution_tree.specs.Layers.{layers_from, likelihood_rows};
ghost use Rattle.convolution_tree.specs.Tree.{scratch_len, seeded, propagated};

use crate::first_layer::{build_first_layer, size_for};
use crate::layer::{count_layer, likelihoods_below};

// What the two nodes below the root of 128 leaves take.
const WIDEST: usize = 130;

// The layers above the leaves, which stand at the start of w, are put behind them. It gives the place of the root.
fn build_remaining_layers(w: &mut [f32], t: &mut [f32], layers: usize, leaves: usize) -> usize
    requires { (t.old ≡ replicate 130 zeroᶠ) × (leaves ≡ 2 ^ layers) × (leaves ≤ 128) × ((layers + 3) * leaves ≤ length w.old + 1) }
    ensures { (w.new ≡ put w.old (2 * leaves) (layers_from layers (count_layer (nodes 2 leaves w.old)))) × (t.new ≡ replicate 130 zeroᶠ) × (result + 2 ≡ (layers + 2) * leaves) }
{
    let mut at = 0;
    let mut c = leaves;
    let mut m = 2;
    for _ in 0..layers {
        let above = at + leaves + c;
        let wide = m + m - 1;
        c = c / 2;
        count_layer(w, &mut t[..wide], at, c, m, above);
        at = above;
        m = wide;
    }
    at
}

// The likelihoods take the place of the distributions, from the root's, n floats at root, down to the leaves'.
fn propagate_backward(
    w: &mut [f32],
    t: &mut [f32],
    layers: usize,
    leaves: usize,
    root: usize,
    n: usize,
)
    requires { (t.old ≡ replicate 130 zeroᶠ) × (leaves ≡ 2 ^ layers) × (leaves ≤ 128) × (2 * leaves ≤ length w.old) × (root + n ≤ length w.old) × (leaves + 1 ≤ n + n) × (take root w.old ≡ layers_from layers (nodes 2 leaves w.old)) }
    ensures { (w.new ≡ put w.old 0 (likelihood_rows layers (region w.old root n) (nodes 2 leaves w.old))) × (t.new ≡ replicate 130 zeroᶠ) }
{
    let mut at = root;
    let mut c = 1;
    let mut m = leaves + 1;
    let mut f = n;
    for _ in 0..layers {
        let low = at - (leaves + c + c);
        let half = (m + 1) / 2;
        let two = half + half;
        likelihoods_below(w, &mut t[..two], at, f, low, c, half);
        at = low;
        c = c + c;
        m = half;
        f = half;
    }
}

// The n floats at the start, the factor's message, and n entries of the root's distribution, at `at`, change places: the one is the root's
// likelihood, the other is what the factor is sent.
fn exchange(w: &mut [f32], at: usize, n: usize)
    requires { (n ≤ at) × (at + n ≤ length w.old) }
    ensures { w.new ≡ put (put w.old 0 (region w.old at n)) at (region w.old 0 n) }
{
    let (front, back) = w.split_at_mut(at);
    front[..n].swap_with_slice(&mut back[..n]);
}

// What the tree is built from: the factor's message, normalised, and the leaves behind it.
fn seed(w: &mut [f32], n: usize, leaves: usize)
    requires { (leaves ≡ 2 ^ log_length n) × (n ≤ leaves) × (n + 1 + 2 * leaves ≤ length w.old) }
    ensures { w.new ≡ put w.old 0 (seeded n w.old) }
{
    let b = n + 1;
    array_utils::normalize(&mut w[..b]);
    build_first_layer(&mut w[b..], n, leaves);
}

// Up and down. The message to the factor then stands where the factor's stood, and the likelihoods of the leaves behind it.
fn propagate(w: &mut [f32], t: &mut [f32], n: usize, layers: usize, leaves: usize)
    requires { (t.old ≡ replicate 130 zeroᶠ) × (leaves ≡ 2 ^ layers) × (leaves ≤ 128) × (0 < layers) × (n ≤ leaves) × (leaves ≤ n + n) × (n + (layers + 3) * leaves ≤ length w.old) }
    ensures { (w.new ≡ put w.old 0 (propagated n layers leaves w.old)) × (t.new ≡ replicate 130 zeroᶠ) }
{
    let b = n + 1;
    let root = build_remaining_layers(&mut w[b..], t, layers, leaves);
    exchange(w, b + root, b);
    propagate_backward(&mut w[b..], t, layers, leaves, root, b);
}

// The first e floats are raised to c, and the others up to `end` are cleared.
fn finish(w: &mut [f32], e: usize, end: usize)
    requires { (e ≤ end) × (end ≤ length w.old) }
    ensures { w.new ≡ put w.old 0 (avoid_underflow_all (take e w.old) ++ replicate (end - e) zeroᶠ) }
{
    array_utils::avoid_underflow(&mut w[..e]);
    w[e..end].fill(0.0);
}

// How many floats a tree over n grades needs behind its messages.
pub fn scratch_len(n: usize) -> usize
    requires { n ≤ 128 }
    ensures { (result ≡ scratch_len n) × (result ≤ 1279) }
{
    let s = size_for(n);
    (s.layers + 3) * s.leaves - (2 * n + 1)
}

// w starts with the message of the tree's factor, n + 1 floats, and those of its n grades, two floats each. In their place it leaves what the tree
// sends to each of them, raised to c, and behind them, in as many floats as `scratch_len` says, zeros.
pub fn tree_messages(w: &mut [f32], n: usize)
    requires { (2 ≤ n) × (n ≤ 128) × (3 * n + 1 + scratch_len n ≤ length w.old) }
    ensures { w.new ≡ put w.old 0 (flat (tree_messages (take (n + 1) w.old) (nodes 2 n (drop (n + 1) w.old))) ++ replicate (scratch_len n) zeroᶠ) }
{
    let s = size_for(n);
    let layers = s.layers;
    let leaves = s.leaves;
    let mut t = [0.0; WIDEST];
    seed(w, n, leaves);
    propagate(w, &mut t, n, layers, leaves);
    finish(w, 3 * n + 1, n + (layers + 3) * leaves);
}
