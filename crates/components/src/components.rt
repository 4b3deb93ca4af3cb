// The connected components of a built graph: the walk, and the record of each component.
ghost use Rattle.std.specs.Prelude.{◌≡◌, ◌+◌, ◌-◌, ◌*◌, ◌≤◌, ◌<◌, length};
ghost use Rattle.components.specs.ComponentMemory.{memory, out_at};
ghost use Rattle.components.specs.ComponentWalk.{walk_of, first_of, slot_of, other_end_of, Meeting, visit_node, Visiting, visit_neighbours, Walking, walked};
ghost use Rattle.components.specs.ComponentRecorded.{recorded_of};
ghost use Rattle.definition.specs.FactorGraph.{Bale};
ghost use Rattle.components.specs.ComponentReady.{Ready, ReadyOf, Done};
ghost use Rattle.components.specs.ComponentAll.{Finding, all_of, all_from};
ghost use Rattle.components.specs.ComponentStep.{Stepping, component_at, next_free};

// How many nodes were met in this component, and how many of them are on the stack.
#[derive(Clone, Copy)]
pub struct Met {
    pub count: usize,
    pub top: usize,
}

// Where the slots of node v begin.
pub fn first_slot(words: &[u32], n: usize, s: usize, v: usize) -> usize
    requires { 2 + 2 * n + v < length words.now }
    ensures { result ≡ first_of n s words.now v }
{
    words[2 + 2 * n + v] as usize
}

// The other end, seen from v, of the edge in slot i.
fn neighbour(words: &[u32], n: usize, s: usize, v: usize, i: usize) -> u32
    requires i_in_bounds { 3 + 3 * n + i < length words.now }
    requires i_in_bounds_2 { 3 + 3 * n + s + 5 * slot_of n s words.now i + 1 < length words.now }
    ensures { result ≡ other_end_of n s words.now v (slot_of n s words.now i) }
{
    let k = words[3 + 3 * n + i] as usize;
    let at = 3 + 3 * n + s + 5 * k;
    let one = words[at];
    if v == one as usize {
        return words[at + 1];
    }
    one
}

// Node v, unless it has a number, gets the next one, and goes onto the stack and the list of nodes met.
fn visit_node(words: &mut [u32], n: usize, e: usize, s: usize, at: usize, v: u32, met: Met) -> Met
    requires { Meeting n e s at v words.old met.count met.top }
    ensures { walk_of (memory n e s words.new) result.count result.top ≡ visit_node at v (walk_of (memory n e s words.old) met.count met.top) }
{
    let i = 3 + 3 * n + s + 5 * e + v as usize;
    if words[i] != 0 {
        return met;
    }
    let count = met.count;
    let top = met.top;
    let stack = 3 + 3 * n + s + 5 * e + n + e;
    words[i] = (count + 1) as u32;
    words[stack + top] = v;
    words[stack + n + at + 2 + count] = v;
    Met {
        count: count + 1,
        top: top + 1,
    }
}

// Visits each neighbour of v.
fn visit_neighbours(
    words: &mut [u32],
    n: usize,
    e: usize,
    s: usize,
    at: usize,
    v: usize,
    met: Met,
) -> Met
    requires s_in_bounds { out_at n e s ≤ length words.old }
    requires visiting { Visiting n e s at v (walk_of (memory n e s words.old) met.count met.top) }
    ensures { walk_of (memory n e s words.new) result.count result.top ≡ visit_neighbours n s at v (walk_of (memory n e s words.old) met.count met.top) }
{
    let first = first_slot(words, n, s, v);
    let last = first_slot(words, n, s, v + 1);
    let mut m = met;
    for i in first..last {
        let w = neighbour(words, n, s, v, i);
        m = visit_node(words, n, e, s, at, w, m);
    }
    m
}

// Takes the nodes from the stack, last in first out, and visits the neighbours of each, until the stack is empty. How many nodes were met.
fn walk(words: &mut [u32], n: usize, e: usize, s: usize, at: usize, met: Met) -> usize
    requires s_in_bounds { out_at n e s ≤ length words.old }
    requires walking { Walking n e s at (walk_of (memory n e s words.old) met.count met.top) }
    requires n_bound { n < 4294967296 }
    requires top_in_bounds { out_at n e s + (at + 2 + (walked n s at n (walk_of (memory n e s words.old) met.count met.top)).count) ≤ length words.old }
    ensures { walk_of (memory n e s words.new) result 0 ≡ walked n s at n (walk_of (memory n e s words.old) met.count met.top) }
{
    let stack = 3 + 3 * n + s + 5 * e + n + e;
    let mut m = met;
    while m.top > 0 {
        let top = m.top - 1;
        let v = words[stack + top] as usize;
        words[stack + top] = 0;
        let popped = Met {
            count: m.count,
            top: top,
        };
        m = visit_neighbours(words, n, e, s, at, v, popped);
    }
    m.count
}

// The first node from `from` on that no component has yet, or n.
pub fn next_start(words: &[u32], n: usize, e: usize, s: usize, from: usize) -> usize
    requires { (out_at n e s ≤ length words.now) × (from ≤ n) }
    ensures { result ≡ next_free (memory n e s words.now).node_numbers from (n - from) }
{
    let numbers = 3 + 3 * n + s + 5 * e;
    for i in from..n {
        if words[numbers + i] == 0 {
            return i;
        }
    }
    n
}

// The component of node v: walks it, and writes its record at place `at` of the records. Where the record ends.
pub fn component(words: &mut [u32], n: usize, e: usize, s: usize, at: usize, v: usize) -> usize
    requires { Stepping n e s at v words.old }
    ensures { recorded_of (memory n e s words.new) result ≡ component_at n s at v (memory n e s words.old) }
{
    let none = Met { count: 0, top: 0 };
    let first = visit_node(words, n, e, s, at, v as u32, none);
    let count = walk(words, n, e, s, at, first);
    crate::records::write_record(words, n, e, s, at, count)
}

// How many components there are, and where the last record ends.
#[derive(Clone, Copy)]
pub struct Found {
    pub count: usize,
    pub end: usize,
}

// All components, in the order of their lowest nodes, one record after the other.
pub fn find_components(words: &mut [u32], n: usize, e: usize, s: usize) -> Found
    requires { Finding n e s words.old }
    ensures { all_of (memory n e s words.new) result.count result.end ≡ all_from n s n 0 0 0 (memory n e s words.old) }
{
    let mut at = 0;
    let mut count = 0;
    let mut v = next_start(words, n, e, s, 0);
    // v moves on to the next node that no component has yet.
    while v < n {
        at = component(words, n, e, s, at, v);
        count += 1;
        v = next_start(words, n, e, s, v + 1);
    }
    Found {
        count: count,
        end: at,
    }
}

// The connected components of the built graph whose record is at the front of the words, with n nodes, e edges and s slots: behind it
// the scratch, set to 0, and behind that the components' records, one after the other. How many there are, and where the last one ends.
pub fn connected_components(words: &mut [u32], n: usize, e: usize, s: usize) -> Found
    requires { ReadyOf n e s words.old }
    ensures { (b : Bale) → Ready b n e s words.old → Done b n e s words.old words.new result.count result.end }
{
    let graph = 3 + 3 * n + s + 5 * e;
    let records = graph + n + e + n;
    words[graph..records].fill(0);
    let found = find_components(words, n, e, s);
    words[graph..records].fill(0);
    Found {
        count: found.count,
        end: records + found.end,
    }
}
