// A node's edge list, handed out as a part of the caller's words.
ghost use Rattle.std.specs.Prelude.{◌≡◌, List, ℕ};
ghost use Rattle.definition.specs.Components.{Subgraph};
ghost use Rattle.factor_graph.specs.BuildReader.{RecordOf, HasNode, edges_at};

// The numbers of the edges of a node, from the record that the words begin with.
pub fn edges_of(words: &[u32], node: u32) -> &[u32]
    requires { HasNode words.now node }
    ensures { (labels : List ℕ) (g : Subgraph) → RecordOf words.now labels g → result.now ≡ edges_at g node }
{
    let n = words[0] as usize;
    let at = 2 + 2 * n + node as usize;
    let slots = 3 + 3 * n;
    let from = slots + words[at] as usize;
    let to = slots + words[at + 1] as usize;
    &words[from..to]
}
