// The schedule's queue (`priorities` of src/messages.rs) in words that the caller lends: a tournament over w leaves, w a power of two. Leaf i is word w + i,
// the key of direction i; an inner node holds the larger key of its two children; word 0 is not used.
#![tactic(auto)]

ghost use Rattle.std.specs.Prelude.{◌≡◌, List, ℕ, ◌+◌, ◌*◌, ◌^◌, ◌≤◌, ◌<◌, T, length, set, drop};
ghost use Rattle.std.proofs.Math.Option.{some};
ghost use Rattle.definition.specs.Priorities.{highest_priority};
ghost use Rattle.float_laws.specs.Rounded.{clear};
ghost use Rattle.priorities.specs.Leaves.{leaves_for, Full};
ghost use Rattle.priorities.specs.Keys.{decode_key, encode_key, decoded, last_key};
ghost use Rattle.priorities.specs.Tournament.{larger_child, tournament, Holds, Queue, Tree};
ghost use Rattle.priorities.specs.Descent.{FirstLargest};
ghost use Rattle.priorities.specs.Answer.{highest_of};

// The direction that waits with the largest amount, the least such direction, and that amount.
#[derive(Clone, Copy)]
pub struct Highest {
    pub direction: u32,
    pub amount: f32,
}

// The least power of two that is not below d.
pub fn leaves_for(d: usize) -> usize
    requires { d ≤ 2 ^ 32 }
    ensures { result ≡ leaves_for d }
{
    let mut w: usize = 1;
    while w < d {
        w = 2 * w;
    }
    w
}

// One more than the bits: 0 is the key of what does not wait.
pub fn key_of(amount: f32) -> u32
    requires { T (clear amount) }
    ensures { (result ≡ encode_key (some amount)) × (decode_key result ≡ some amount) × (result ≤ last_key) }
{
    f32::to_bits(amount) + 1
}

pub fn amount_of(key: u32) -> f32
    requires { (1 ≤ key) × (key ≤ last_key) }
    ensures { decode_key key ≡ some result }
{
    f32::from_bits(key - 1)
}

fn larger_child(words: &[u32], j: usize) -> u32
    requires { 2 * j + 1 < length words.now }
    ensures { result ≡ larger_child words.now j }
{
    words[2 * j].max(words[2 * j + 1])
}

// Makes the inner nodes, from the last to the first, of the leaves that stand there.
pub fn fill(words: &mut [u32], w: usize)
    requires { (1 ≤ w) × (length words.old ≡ 2 * w) }
    ensures { words.new ≡ tournament w (drop w words.old) }
{
    words[0] = 0;
    for j in (1..w).rev() {
        words[j] = larger_child(words, j);
    }
}

// Gives direction d a key, and goes up from its leaf as long as a node changes.
pub fn set(words: &mut [u32], w: usize, d: usize, key: u32)
    requires queue { Queue w words.old }
    requires d_lt_w { (d < w) × (key ≤ last_key) }
    ensures queue_2 { Queue w words.new }
    ensures by_index { (keys : List ℕ) → Holds w keys words.old → d < length keys → words.new ≡ tournament w (set keys d key) }
{
    let mut k = w + d;
    words[k] = key;
    while 1 < k {
        k = k / 2;
        let larger = larger_child(words, k);
        if words[k] == larger {
            return;
        }
        words[k] = larger;
    }
}

// The first leaf that holds the root's key: to the right only where that child's key is larger.
fn first_largest(words: &[u32], w: usize) -> usize
    requires tree { Tree words.now w }
    requires full { Full w }
    ensures { FirstLargest words.now w result }
{
    let mut k: usize = 1;
    while k < w {
        k = 2 * k;
        if words[k] < words[k + 1] {
            k = k + 1;
        }
    }
    k
}

// `get_highest_priority` of src/messages.rs. A direction is a u32, so there are at most 2^32 leaves.
pub fn highest_priority(words: &[u32], w: usize) -> Option<Highest>
    requires queue { Queue w words.now }
    requires w_bound { w ≤ 2 ^ 32 }
    ensures { (keys : List ℕ) → Holds w keys words.now → highest_of result ≡ highest_priority (decoded keys) }
{
    let key = words[1];
    if key == 0 {
        return None;
    }
    let leaf = first_largest(words, w);
    Some(Highest {
        direction: (leaf - w) as u32,
        amount: amount_of(key),
    })
}
