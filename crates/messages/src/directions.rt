// The rows of a component's message graph, made of the component's record: for each direction where it starts, the direction back, and where its message begins.
ghost use Rattle.std.specs.Prelude.{◌≡◌, List, ℕ, ◌+◌, ◌≤◌, ◌<◌, length, get_or};
ghost use Rattle.definition.specs.Components.{Subgraph};
ghost use Rattle.definition.specs.Directions.{message_graph};
ghost use Rattle.list_laws.specs.Put.{put};
ghost use Rattle.messages.specs.DirectionsRecord.{firsts_place, Recorded};
ghost use Rattle.messages.specs.DirectionsRows.{direction_rows};
ghost use Rattle.messages.specs.Directions.{far_node, place_in_far, direction_step, StepFits, Filled, SomeFilled, Ready};
ghost use Rattle.messages.specs.DirectionsRead.{kinds_row, labels_row, firsts_row, starts_row, outs_row, offsets_row, RecordFits, RowsFit};

// A word as an index.
pub fn word(words: &[u32], i: usize) -> usize
    requires { i < length words.now }
    ensures { (result ≡ get_or words.now i 0) × (result < 4294967296) }
{
    words[i] as usize
}

// The other end of the edge whose words begin at `edge`, seen from its end n.
fn far_node(words: &[u32], edge: usize, n: usize) -> u32
    requires { edge + 5 ≤ length words.now }
    ensures { result ≡ far_node words.now edge n }
{
    if word(words, edge) == n {
        words[edge + 1]
    } else {
        words[edge]
    }
}

// The place of n in the other end's list.
fn place_in_far(words: &[u32], edge: usize, n: usize) -> u32
    requires { edge + 5 ≤ length words.now }
    ensures { result ≡ place_in_far words.now edge n }
{
    if word(words, edge) == n {
        words[edge + 3]
    } else {
        words[edge + 2]
    }
}

// Direction d, which ends at node n. The offset of its own message is there already.
fn fill_direction(
    words: &mut [u32],
    at: usize,
    nodes: usize,
    edges: usize,
    out: usize,
    n: usize,
    d: usize,
)
    requires { StepFits words.old at nodes edges out n d }
    ensures { words.new ≡ direction_step at nodes edges out n d words.old }
{
    let slots = at + 3 + 3 * nodes;
    let edge = slots + 2 * edges + 5 * word(words, slots + d);
    let start = far_node(words, edge, n);
    let back = words[at + 2 + 2 * nodes + start as usize] + place_in_far(words, edge, n);
    let offset = out + 4 * edges + d;
    let next = words[offset] + words[edge + 4];
    words[out + d] = start;
    words[out + 2 * edges + d] = back;
    words[offset + 1] = next;
}

// The directions that end at node n, slot by slot.
fn fill_node(words: &mut [u32], at: usize, nodes: usize, edges: usize, out: usize, n: usize)
    requires { (n < nodes) × SomeFilled words.old at nodes edges out (get_or words.old (firsts_place at nodes + n) 0) }
    ensures { (base labels : List ℕ) (g : Subgraph) → Filled base at out labels g (get_or words.old (firsts_place at nodes + n) 0) words.old → Filled base at out labels g (get_or words.old (firsts_place at nodes + n + 1) 0) words.new }
{
    let first = at + 2 + 2 * nodes + n;
    for d in word(words, first)..word(words, first + 1) {
        fill_direction(words, at, nodes, edges, out, n, d);
    }
}

// The rows of the record at `at`, written from `out` on: the starts, the directions back, the offsets.
pub fn fill_directions(words: &mut [u32], at: usize, out: usize)
    requires { Ready words.old at out }
    ensures { (labels : List ℕ) (g : Subgraph) → Recorded words.old at labels g → words.new ≡ put words.old out (direction_rows (message_graph g)) }
{
    let nodes = word(words, at);
    let edges = word(words, at + 1);
    words[out + 4 * edges] = 0;
    for n in 0..nodes {
        fill_node(words, at, nodes, edges, out, n);
    }
}

// ---- the rows, each a part of the words

pub fn kinds_row(words: &[u32], at: usize) -> &[u32]
    requires { RecordFits words.now at }
    ensures { result.now ≡ kinds_row words.now at }
{
    let nodes = word(words, at);
    let from = at + 2;
    &words[from..from + nodes]
}

pub fn labels_row(words: &[u32], at: usize) -> &[u32]
    requires { RecordFits words.now at }
    ensures { result.now ≡ labels_row words.now at }
{
    let nodes = word(words, at);
    let from = at + 2 + nodes;
    &words[from..from + nodes]
}

pub fn firsts_row(words: &[u32], at: usize) -> &[u32]
    requires { RecordFits words.now at }
    ensures { result.now ≡ firsts_row words.now at }
{
    let nodes = word(words, at);
    let from = at + 2 + 2 * nodes;
    &words[from..from + (nodes + 1)]
}

pub fn starts_row(words: &[u32], at: usize, out: usize) -> &[u32]
    requires { RowsFit words.now at out }
    ensures { result.now ≡ starts_row words.now at out }
{
    let edges = word(words, at + 1);
    &words[out..out + 2 * edges]
}

pub fn outs_row(words: &[u32], at: usize, out: usize) -> &[u32]
    requires { RowsFit words.now at out }
    ensures { result.now ≡ outs_row words.now at out }
{
    let edges = word(words, at + 1);
    let from = out + 2 * edges;
    &words[from..from + 2 * edges]
}

pub fn offsets_row(words: &[u32], at: usize, out: usize) -> &[u32]
    requires { RowsFit words.now at out }
    ensures { result.now ≡ offsets_row words.now at out }
{
    let edges = word(words, at + 1);
    let from = out + 4 * edges;
    &words[from..from + (2 * edges + 1)]
}
