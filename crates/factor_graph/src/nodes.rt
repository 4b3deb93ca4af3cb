// The nodes' words: a kind and a label for each grade, factor, input and tree, in the order of their numbers.
ghost use Rattle.std.specs.Prelude.{◌≡◌, ◌+◌, ◌^◌, ◌≤◌, ◌<◌, length};
ghost use Rattle.definition.specs.Lists.{range};
ghost use Rattle.list_laws.specs.Put.{put};
ghost use Rattle.factor_graph.specs.BuildNodes.{trees_from, kind_words, label_words};

use crate::kind::NodeKind;
use crate::write_edges::trees_of;

// The numbers below n, from `at` on.
fn count_up(words: &mut [u32], at: usize, n: usize)
    requires { (at + n ≤ length words.old) × (n < 2 ^ 32) }
    ensures { words.new ≡ put words.old at (range 0 n) }
{
    for i in 0..n {
        words[at + i] = i as u32;
    }
}

// How many of the markers have a tree.
pub fn count_trees(counts: &[u32], markers: usize) -> usize
    requires { markers ≤ length counts.now }
    ensures { result ≡ length (trees_from counts.now markers 0) }
{
    let mut trees = 0;
    for m in 0..markers {
        trees += trees_of(counts[m] as usize);
    }
    trees
}

// The markers that have a tree, from `at` on.
fn tree_labels(words: &mut [u32], at: usize, counts: &[u32], markers: usize)
    requires { (at + length (trees_from counts.now markers 0) ≤ length words.old) × (markers ≤ length counts.now) × (markers < 2 ^ 32) }
    ensures { words.new ≡ put words.old at (trees_from counts.now markers 0) }
{
    let mut t = 0;
    for m in 0..markers {
        if 2 <= counts[m] {
            words[at + t] = m as u32;
            t += 1;
        }
    }
}

// The kinds of g grades, of the factors and the inputs of m markers, and of t trees.
pub fn write_kinds(words: &mut [u32], at: usize, g: usize, m: usize, t: usize)
    requires { at + (g + (m + (m + t))) ≤ length words.old }
    ensures { words.new ≡ put words.old at (kind_words g m t) }
{
    let factors = at + g;
    let inputs = factors + m;
    let trees = inputs + m;
    let end = trees + t;
    words[at..factors].fill(NodeKind::Grade as u32);
    words[factors..inputs].fill(NodeKind::Factor as u32);
    words[inputs..trees].fill(NodeKind::Input as u32);
    words[trees..end].fill(NodeKind::Tree as u32);
}

// Their labels: a grade's number, or that of the marker that a node belongs to.
pub fn write_labels(words: &mut [u32], at: usize, g: usize, m: usize, counts: &[u32])
    requires { (at + (g + (m + (m + length (trees_from counts.now m 0)))) ≤ length words.old) × (m ≤ length counts.now) × (g < 2 ^ 32) × (m < 2 ^ 32) }
    ensures { words.new ≡ put words.old at (label_words g m counts.now) }
{
    count_up(words, at, g);
    count_up(words, at + g, m);
    count_up(words, at + g + m, m);
    tree_labels(words, at + g + m + m, counts, m);
}
