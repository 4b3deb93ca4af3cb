// The record of a component, once its nodes are known: kinds, labels, first slots, slots and edges.
ghost use Rattle.std.specs.Prelude.{◌≡◌, ◌⊎◌, ℕ, ◌+◌, ◌≤◌, ◌<◌, length, get_or};
ghost use Rattle.components.specs.ComponentMemory.{memory, with_out};
ghost use Rattle.components.specs.ComponentRecord.{looked_up, degree_at, slots_of, ListingOne, list_one, Listing, listed, edge_out, seen_of, number_edge, see_slots};
ghost use Rattle.components.specs.ComponentEdges.{EdgeRoom, Numbering, Seeing};
ghost use Rattle.components.specs.ComponentRecorded.{Recording, recorded_of, recorded};

use crate::components::first_slot;

// Writes, for each of n numbers, what stands there in a table; in place, or further on.
fn look_up(words: &mut [u32], table: usize, from: usize, to: usize, n: usize)
    requires from_le_to { (from ≤ to) × ((from + n ≤ to) ⊎ (from ≡ to)) }
    requires n_in_bounds { to + n ≤ length words.old }
    requires by_index { (k : ℕ) → k < n → table + get_or words.old (from + k) 0 < to }
    ensures { words.new ≡ looked_up words.old table from to n }
{
    for i in 0..n {
        let k = words[from + i] as usize;
        words[to + i] = words[table + k];
    }
}

// Writes where the slots of the i-th node begin, and its slots. How many slots there are so far.
fn write_list(
    words: &mut [u32],
    n: usize,
    e: usize,
    s: usize,
    at: usize,
    count: usize,
    i: usize,
    total: usize,
) -> usize
    requires { ListingOne n e s at count i total words.old }
    ensures words_after { memory n e s words.new ≡ list_one n s at count i total (memory n e s words.old) }
    ensures value { result ≡ total + degree_at n s at count (memory n e s words.old).graph (memory n e s words.old).out i }
{
    let nodes = 3 + 3 * n + s + 5 * e + n + e + n + at + 2;
    let v = words[nodes + i] as usize;
    let first = first_slot(words, n, s, v);
    let degree = first_slot(words, n, s, v + 1) - first;
    words[nodes + 2 * count + i] = total as u32;
    let from = 3 + 3 * n + first;
    let to = nodes + 1 + 3 * count + total;
    // Most lists are so short that `copy_within` takes longer.
    for j in 0..degree {
        words[to + j] = words[from + j];
    }
    total + degree
}

// Writes where the slots of each node begin, and the slots, with the edges' numbers of the whole graph. How many slots there are.
fn write_lists(words: &mut [u32], n: usize, e: usize, s: usize, at: usize, count: usize) -> usize
    requires { Listing n e s at count words.old }
    ensures words_after { memory n e s words.new ≡ with_out (memory n e s words.old) (listed n s at count (memory n e s words.old).graph (memory n e s words.old).out) }
    ensures value { result ≡ slots_of n s at count (memory n e s words.old).graph (memory n e s words.old).out count }
{
    let mut total = 0;
    for i in 0..count {
        total = write_list(words, n, e, s, at, count, i, total);
    }
    words[3 + 3 * n + s + 5 * e + n + e + n + at + 2 + 3 * count] = total as u32;
    total
}

// The five words of edge k: its ends by their numbers in the component, and the rest as it stands in the graph.
fn write_edge(words: &mut [u32], n: usize, e: usize, s: usize, to: usize, k: usize)
    requires { EdgeRoom n e s to k words.old }
    ensures { memory n e s words.new ≡ with_out (memory n e s words.old) (edge_out n s (memory n e s words.old) k (memory n e s words.old).out to) }
{
    let edge = 3 + 3 * n + s + 5 * k;
    let numbers = 3 + 3 * n + s + 5 * e;
    let one = words[edge] as usize;
    let two = words[edge + 1] as usize;
    let node1 = words[numbers + one].saturating_sub(1);
    let node2 = words[numbers + two].saturating_sub(1);
    let node2_in_node1 = words[edge + 2];
    let node1_in_node2 = words[edge + 3];
    let length = words[edge + 4];
    let i = numbers + n + e + n + to;
    words[i] = node1;
    words[i + 1] = node2;
    words[i + 2] = node2_in_node1;
    words[i + 3] = node1_in_node2;
    words[i + 4] = length;
}

// Edge k, unless it has a number, gets the next one, and its words are written. How many edges have a number.
fn number_edge(
    words: &mut [u32],
    n: usize,
    e: usize,
    s: usize,
    to: usize,
    k: usize,
    count: usize,
) -> usize
    requires { Numbering n e s to k count words.old }
    ensures { seen_of (memory n e s words.new) result ≡ number_edge n s to k (seen_of (memory n e s words.old) count) }
{
    let i = 3 + 3 * n + s + 5 * e + n + k;
    if words[i] != 0 {
        return count;
    }
    words[i] = (count + 1) as u32;
    write_edge(words, n, e, s, to + 5 * count, k);
    count + 1
}

// Numbers the edges in the slots from place `from` on, each at first sight, and writes each edge's number into its slots. How many edges there are.
fn number_edges(
    words: &mut [u32],
    n: usize,
    e: usize,
    s: usize,
    from: usize,
    to: usize,
    total: usize,
) -> usize
    requires { Seeing n e s from to total words.old }
    ensures { seen_of (memory n e s words.new) result ≡ see_slots n s from to total (seen_of (memory n e s words.old) 0) }
{
    let numbers = 3 + 3 * n + s + 5 * e + n;
    let first = numbers + e + n + from;
    let mut count = 0;
    for i in 0..total {
        let k = words[first + i] as usize;
        count = number_edge(words, n, e, s, to, k, count);
        words[first + i] = words[numbers + k].saturating_sub(1);
    }
    count
}

// Writes the record of a component with so many nodes, whose numbers stand where the record's kinds will be. Where the record ends.
pub fn write_record(
    words: &mut [u32],
    n: usize,
    e: usize,
    s: usize,
    at: usize,
    count: usize,
) -> usize
    requires { Recording n e s at count words.old }
    ensures { recorded_of (memory n e s words.new) result ≡ recorded n s at count (memory n e s words.old) }
{
    let first = 3 + 3 * n + s + 5 * e + n + e + n + at;
    let nodes = first + 2;
    look_up(words, 2 + n, nodes, nodes + count, count);
    let total = write_lists(words, n, e, s, at, count);
    let slots = at + 3 + 3 * count;
    let edges = number_edges(words, n, e, s, slots, slots + total, total);
    look_up(words, 2, nodes, nodes, count);
    words[first] = count as u32;
    words[first + 1] = edges as u32;
    slots + total + 5 * edges
}
