// Where the loop begins: nothing is pending, and each direction waits whose residual exceeds the tolerance.
ghost use Rattle.std.specs.Prelude.{◌≡◌, List, ◌+◌, Float};
ghost use Rattle.definition.specs.Settings as definition;
ghost use Rattle.definition.specs.Directions.{MessageGraph};
ghost use Rattle.definition.specs.Sweeps.{Store};
ghost use Rattle.definition.specs.Run.{begin_loop};
ghost use Rattle.list_laws.specs.Write.{write};
ghost use Rattle.zero_lookahead.specs.Part.{Given, leaves_in, queue_at, StandsFor, Runs, KeptFront};
ghost use Rattle.zero_lookahead.specs.BeginKeys.{SomeStandingAny, leaf_key};

use crate::open::clear_pending;
use crate::settings::Settings;
use array_utils::LogTable;
use messages::directions::word;
use opening::begin::initial_key;
use priorities::{fill, leaves_for};

// The key of direction d, from its message in force and its message in the log. It is 0 behind the last direction.
fn leaf_key(
    table: &LogTable,
    w: &[f32],
    words: &[u32],
    out: usize,
    settings: Settings,
    d: usize,
) -> u32
    requires some_standing_any { SomeStandingAny settings out words.now w.now }
    ensures { (s : definition.Settings) (t : MessageGraph) (evidence : List Float) (x : Store) → StandsFor s t out evidence x words.now w.now → Given s settings → result ≡ leaf_key s t x d }
{
    let edges = word(words, 1);
    if 2 * edges <= d {
        return 0;
    }
    let l = word(words, out + 6 * edges);
    let from = word(words, out + 4 * edges + d);
    let to = word(words, out + 4 * edges + d + 1);
    initial_key(
        table,
        &w[from..to],
        &w[2 * l + from..2 * l + to],
        settings.tolerance,
    )
}

// The keys of all leaves of the queue, which stand from `at` on.
fn fill_leaves(
    table: &LogTable,
    w: &[f32],
    words: &mut [u32],
    out: usize,
    settings: Settings,
    at: usize,
    leaves: usize,
)
    requires some_standing_any { SomeStandingAny settings out words.old w.now }
    requires at_value { (at ≡ queue_at words.old out + leaves_in words.old) × (leaves ≡ leaves_in words.old) }
    ensures { (s : definition.Settings) (t : MessageGraph) (evidence : List Float) (x : Store) → StandsFor s t out evidence x words.old w.now → Given s settings → words.new ≡ write words.old at leaves (leaf_key s t x) }
{
    for d in 0..leaves {
        let key = leaf_key(table, w, words, out, settings, d);
        words[at + d] = key;
    }
}

pub fn begin(table: &LogTable, w: &mut [f32], words: &mut [u32], out: usize, settings: Settings)
    requires some_standing_any { SomeStandingAny settings out words.old w.old }
    ensures kept_front { KeptFront out words.old words.new }
    ensures runs { (s : definition.Settings) (t : MessageGraph) (evidence : List Float) (x : Store) → StandsFor s t out evidence x words.old w.old → Given s settings → Runs s t out evidence (begin_loop s t x) words.new w.new }
{
    clear_pending(w, words, out, 0);
    let nodes = word(words, 0);
    let edges = word(words, 1);
    let leaves = leaves_for(2 * edges);
    let at = out + (6 * edges + 1) + nodes;
    fill_leaves(table, w, words, out, settings, at + leaves, leaves);
    fill(&mut words[at..at + 2 * leaves], leaves);
}
