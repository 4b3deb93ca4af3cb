// The edges of the built graph, marker by marker, five words each: the two ends, the place of each in the other's list, and the messages' length.
ghost use Rattle.std.specs.Prelude.{◌≡◌, cond, map, ◌∷◌, [], ◌+◌, ◌*◌, ◌^◌, ◌≤◌, ◌<◌, length, take, leb};
ghost use Rattle.factor_graph.specs.BuildEdges.{writing, edge_by, push_edge, push_all, Writable, tree_edge, marker_edges_by, edges_from};
ghost use Rattle.factor_graph.specs.BuildSums.{sum_of};

// Edge k. Its place in the list of an end is the number of edges that the end has had so far.
fn push_edge(edges: &mut [u32], degrees: &mut [u32], k: usize, node1: u32, node2: u32, entries: u32)
    requires { Writable k (edge_by node1 node2 entries ∷ []) (writing edges.old degrees.old) }
    ensures { writing edges.new degrees.new ≡ push_edge k (edge_by node1 node2 entries) (writing edges.old degrees.old) }
{
    let place1 = degrees[node1 as usize];
    degrees[node1 as usize] = place1 + 1;
    let place2 = degrees[node2 as usize];
    degrees[node2 as usize] = place2 + 1;
    let at = 5 * k;
    edges[at] = node1;
    edges[at + 1] = node2;
    edges[at + 2] = place1;
    edges[at + 3] = place2;
    edges[at + 4] = entries;
}

// The edges of a tree and its grades, from number k on.
fn tree_edges(edges: &mut [u32], degrees: &mut [u32], grades: &[u32], k: usize, tree: u32)
    requires { Writable k (map (tree_edge tree) grades.now) (writing edges.old degrees.old) }
    ensures { writing edges.new degrees.new ≡ push_all k (map (tree_edge tree) grades.now) (writing edges.old degrees.old) }
{
    for (i, grade) in grades.iter().enumerate() {
        push_edge(edges, degrees, k + i, tree, *grade, 2);
    }
}

// The edges of one marker, from number k on. A factor of degree above 2 has a tree between itself and the grades.
fn marker_edges(
    edges: &mut [u32],
    degrees: &mut [u32],
    grades: &[u32],
    k: usize,
    factor: u32,
    input: u32,
    tree: u32,
)
    requires { (Writable k (marker_edges_by factor input tree grades.now) (writing edges.old degrees.old)) × (length grades.now + 1 < 2 ^ 32) }
    ensures { writing edges.new degrees.new ≡ push_all k (marker_edges_by factor input tree grades.now) (writing edges.old degrees.old) }
{
    let n = grades.len();
    if n == 0 {
        push_edge(edges, degrees, k, input, factor, 2);
        return;
    }
    if n == 1 {
        push_edge(edges, degrees, k, grades[0], factor, 2);
        push_edge(edges, degrees, k + 1, input, factor, 2);
        return;
    }
    push_edge(edges, degrees, k, tree, factor, n as u32 + 1);
    tree_edges(edges, degrees, grades, k + 1, tree);
    push_edge(edges, degrees, k + 1 + n, input, factor, 2);
}

// How many trees a marker of n grades has.
pub fn trees_of(n: usize) -> usize
    ensures { result ≡ cond (leb 2 n) 1 0 }
{
    usize::from(2 <= n)
}

// The edges of all markers. The counts say how many of the grades, which stand one marker after the other, each marker has. The factors begin at
// node number `factors`, the inputs and the trees after them.
pub fn write_edges(
    edges: &mut [u32],
    degrees: &mut [u32],
    counts: &[u32],
    grades: &[u32],
    factors: u32,
    markers: u32,
)
    requires { (Writable 0 (edges_from factors (factors + markers) counts.now grades.now markers 0 (factors + 2 * markers) 0) (writing edges.old degrees.old)) × (markers ≤ length counts.now) × (sum_of (take markers counts.now) ≤ length grades.now) × (length grades.now + 1 < 2 ^ 32) × (factors + 3 * markers < 2 ^ 32) }
    ensures { writing edges.new degrees.new ≡ push_all 0 (edges_from factors (factors + markers) counts.now grades.now markers 0 (factors + 2 * markers) 0) (writing edges.old degrees.old) }
{
    let mut tree = factors + 2 * markers;
    let mut k = 0;
    let mut start = 0;
    for m in 0..markers {
        let n = counts[m as usize] as usize;
        let end = start + n;
        marker_edges(
            edges,
            degrees,
            &grades[start..end],
            k,
            factors + m,
            factors + markers + m,
            tree,
        );
        let trees = trees_of(n);
        k += n + 1 + trees;
        tree += trees as u32;
        start = end;
    }
}
