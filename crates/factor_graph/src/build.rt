// The built graph of a bale (`add_factor_nodes` and `add_ct_nodes` of src/factor_graph.rs), as one record at the front of the lent words.
ghost use Rattle.std.specs.Prelude.{◌≡◌, length};
ghost use Rattle.definition.specs.FactorGraph.{Bale};
ghost use Rattle.definition.specs.Refusals.{pairs_of};
ghost use Rattle.list_laws.specs.Put.{put};
ghost use Rattle.factor_graph.specs.Words.{built_words};
ghost use Rattle.factor_graph.specs.Build.{Buildable};

use crate::group::sort_by_marker;
use crate::nodes::{count_trees, write_kinds, write_labels};
use crate::slots::write_lists;
use crate::write_edges::write_edges;

// The record has the node and edge counts, the kinds, the labels, the first slots, the slots and the edges; the answer is its length.
// A marker's evidence is not read. What sorting and counting need stands in local arrays, so that the words past the record stay as they were.
pub fn build(words: &mut [u32], grades: u32, markers: u32, pairs: &[u32]) -> usize
    requires { Buildable words.old grades markers pairs.now }
    ensures { (b : Bale) → b.grades ≡ grades → length b.markers ≡ markers → b.pairs ≡ pairs_of pairs.now → (words.new ≡ put words.old 0 (built_words b)) × (result ≡ length (built_words b)) }
{
    let g = grades as usize;
    let m = markers as usize;
    let mut counts = [0u32; 1024];
    let mut sorted = [0u32; 8192];
    sort_by_marker(pairs, m, &mut counts, &mut sorted);
    let trees = count_trees(&counts, m);
    let n = g + 2 * m + trees;
    let e = pairs.len() / 2 + m + trees;
    words[0] = n as u32;
    words[1] = e as u32;
    write_kinds(words, 2, g, m, trees);
    write_labels(words, 2 + n, g, m, &counts);
    let mut degrees = [0u32; 4096];
    let edges = 3 + 3 * n + 2 * e;
    let end = edges + 5 * e;
    write_edges(
        &mut words[edges..end],
        &mut degrees,
        &counts,
        &sorted,
        grades,
        markers,
    );
    write_lists(words, &degrees, n, e);
    end
}
