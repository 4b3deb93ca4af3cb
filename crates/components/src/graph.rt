// A bale's graph, built and cut into its connected components (`add_factor_nodes` to `connected_components` of src/factor_graph.rs).
ghost use Rattle.std.specs.Prelude.{◌≡◌, ◌+◌, ◌*◌, ◌/◌, ◌≤◌, length};
ghost use Rattle.definition.specs.FactorGraph.{Bale};
ghost use Rattle.definition.specs.Refusals.{pairs_of};
ghost use Rattle.list_laws.specs.Put.{put};
ghost use Rattle.factor_graph.specs.Words.{built_words};
ghost use Rattle.factor_graph.specs.Build.{Buildable};
ghost use Rattle.components.specs.ComponentBuiltWords.{node_total, edge_total, slot_total};
ghost use Rattle.components.specs.ComponentReady.{Done};

use crate::components::{Found, connected_components};

// The built graph's record at the front of the words, then the scratch, set to 0, and then the components' records.
// How many components there are, and where the last record ends. An edge has two slots.
pub fn build_components(words: &mut [u32], grades: u32, markers: u32, pairs: &[u32]) -> Found
    requires buildable { Buildable words.old grades markers pairs.now }
    requires pairs_in_bounds { 37 * (grades + markers + length pairs.now / 2) + 3 ≤ length words.old }
    ensures { (b : Bale) → b.grades ≡ grades → length b.markers ≡ markers → b.pairs ≡ pairs_of pairs.now → Done b (node_total b) (edge_total b) (slot_total b) (put words.old 0 (built_words b)) words.new result.count result.end }
{
    factor_graph::build::build(words, grades, markers, pairs);
    let n = words[0] as usize;
    let e = words[1] as usize;
    connected_components(words, n, e, 2 * e)
}
