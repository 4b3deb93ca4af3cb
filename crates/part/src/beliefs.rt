// The beliefs of a part's grades, in the order of the nodes, written over the fronts of two answer slices.
ghost use Rattle.std.specs.Prelude.{◌≡◌, List, ◌+◌, ◌-◌, ◌*◌, ◌≤◌, ◌<◌, Float, length, set};
ghost use Rattle.definition.specs.Floats.{◌⊖◌, oneᶠ};
ghost use Rattle.definition.specs.Settings as definition;
ghost use Rattle.definition.specs.FactorGraph.{Node};
ghost use Rattle.definition.specs.Vectors.{Message, binary};
ghost use Rattle.definition.specs.Directions.{MessageGraph};
ghost use Rattle.definition.specs.Sweeps.{Store};
ghost use Rattle.definition.specs.Answer.{marginal, beliefs_among};
ghost use Rattle.list_laws.specs.Part.{region};
ghost use Rattle.messages.specs.Pairs.{pairs};
ghost use Rattle.messages.specs.DirectionsRead.{labels_row};
ghost use Rattle.steps.specs.StepLog.{begins_at, ends_at};
ghost use Rattle.zero_lookahead.specs.Part.{Given, StandsFor};
ghost use Rattle.part.specs.Named.{Named, Believed, SomeBeliefs};
ghost use Rattle.part.specs.Beliefs.{NodeHeld, BeliefRows, SomeRows};

use array_utils::{LogTable, VariableMessage};
use factor_graph::kind::NodeKind;
use messages::directions::{firsts_row, kinds_row, labels_row, offsets_row};
use messages::marginal;
use zero_lookahead::settings::Settings;

// Belief number k of the answer.
fn write_belief(
    numbers: &mut [u32],
    floats: &mut [f32],
    k: usize,
    grade: u32,
    belief: VariableMessage,
)
    requires { (k < length numbers.old) × (2 * k + 1 < length floats.old) }
    ensures numbers_after { numbers.new ≡ set numbers.old k grade }
    ensures floats_after { floats.new ≡ set (set floats.old (2 * k) belief.absent) (2 * k + 1) belief.present }
{
    numbers[k] = grade;
    belief.write(floats, 2 * k);
}

// The belief of grade n, by its prior and the messages that it holds.
fn grade_belief(
    table: &LogTable,
    w: &[f32],
    firsts: &[u32],
    offsets: &[u32],
    prior: f32,
    n: usize,
) -> VariableMessage
    requires node_held { NodeHeld firsts.now offsets.now n (length w.now) }
    ensures { binary result.absent result.present ≡ marginal (binary (oneᶠ ⊖ prior) prior) (pairs (region w.now (begins_at firsts.now offsets.now n) (ends_at firsts.now offsets.now n - begins_at firsts.now offsets.now n))) }
{
    let begin = offsets[firsts[n] as usize] as usize;
    let end = offsets[firsts[n + 1] as usize] as usize;
    marginal(table, VariableMessage::from_prior(prior), &w[begin..end])
}

fn write_beliefs(
    table: &LogTable,
    w: &[f32],
    kinds: &[u32],
    labels: &[u32],
    firsts: &[u32],
    offsets: &[u32],
    prior: f32,
    numbers: &mut [u32],
    floats: &mut [f32],
) -> usize
    requires some_rows { SomeRows prior kinds.now labels.now firsts.now offsets.now w.now (length numbers.old) (length floats.old) }
    ensures { (s : definition.Settings) (t : MessageGraph) (ms : List Message) (ns : List Node) → BeliefRows s t ms ns kinds.now labels.now firsts.now offsets.now w.now → s.prior ≡ prior → length (beliefs_among s ms ns t.nodes) ≤ length numbers.old → 2 * length (beliefs_among s ms ns t.nodes) ≤ length floats.old → Believed (beliefs_among s ms ns t.nodes) numbers.old floats.old result numbers.new floats.new }
{
    let mut k = 0;
    for (n, kind) in kinds.iter().enumerate() {
        if *kind == NodeKind::Grade as u32 {
            let belief = grade_belief(table, w, firsts, offsets, prior, n);
            write_belief(numbers, floats, k, labels[n], belief);
            k += 1;
        }
    }
    k
}

// How many there are.
pub fn beliefs(
    table: &LogTable,
    w: &[f32],
    words: &[u32],
    out: usize,
    settings: Settings,
    numbers: &mut [u32],
    floats: &mut [f32],
) -> usize
    requires some_beliefs { SomeBeliefs settings out words.now w.now (length numbers.old) (length floats.old) }
    ensures { (s : definition.Settings) (t : MessageGraph) (evidence : List Float) (x : Store) (ns : List Node) → StandsFor s t out evidence x words.now w.now → Given s settings → Named t ns (labels_row words.now 0) → length (beliefs_among s x.msg_in ns t.nodes) ≤ length numbers.old → 2 * length (beliefs_among s x.msg_in ns t.nodes) ≤ length floats.old → Believed (beliefs_among s x.msg_in ns t.nodes) numbers.old floats.old result numbers.new floats.new }
{
    let kinds = kinds_row(words, 0);
    let labels = labels_row(words, 0);
    let firsts = firsts_row(words, 0);
    let offsets = offsets_row(words, 0, out);
    write_beliefs(
        table,
        w,
        kinds,
        labels,
        firsts,
        offsets,
        settings.prior,
        numbers,
        floats,
    )
}
