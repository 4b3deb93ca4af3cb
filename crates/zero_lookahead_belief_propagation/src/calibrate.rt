// An accepted call: its graph is cut, its parts are answered one after the other, and its work is cleared.
ghost use Rattle.std.specs.Prelude.{◌≡◌, ◌+◌, ◌*◌, ◌<◌, length, get_or, replicate};
ghost use Rattle.definition.specs.Floats.{zeroᶠ};
ghost use Rattle.definition.specs.FactorGraph.{Bale};
ghost use Rattle.definition.specs.Refusals.{bale_of};
ghost use Rattle.definition.specs.Answer.{answer};
ghost use Rattle.zero_lookahead_belief_propagation.specs.Answered.{answers_with, Written};
ghost use Rattle.zero_lookahead_belief_propagation.specs.AnsweredPart.{settings_from};
ghost use Rattle.zero_lookahead_belief_propagation.specs.AnsweredAll.{RecordsAt, Cut, SomeCut};
ghost use Rattle.zero_lookahead_belief_propagation.specs.Calibrated.{SomeAccepted, AcceptedCall};

use crate::answer::{Filled, answer_part};
use array_utils::LogTable;
use components::graph::build_components;
use messages::directions::word;
use zero_lookahead::settings::Settings;

// How many words the record at index `at` has.
fn record_len(words: &[u32], at: usize) -> usize
    requires { at + 1 < length words.now }
    ensures { result ≡ 3 + 3 * get_or words.now at 0 + 7 * get_or words.now (at + 1) 0 }
{
    let nodes = word(words, at);
    let edges = word(words, at + 1);
    3 + 3 * nodes + 7 * edges
}

// Where the records of all parts stand, and how many there are.
#[derive(Clone, Copy)]
struct Records {
    start: usize,
    count: usize,
    end: usize,
}

// The built graph, cut into its parts. Their records begin behind its own record and the scratch.
fn cut_graph(words: &mut [u32], grades: u32, evidence: &[f32], pairs: &[u32]) -> Records
    requires { SomeAccepted grades evidence.now pairs.now (length words.old) }
    ensures { RecordsAt (bale_of grades evidence.now pairs.now) result.start result.count result.end words.new }
{
    let markers = (evidence.len() / 2) as u32;
    let found = build_components(words, grades, markers, pairs);
    let nodes = word(words, 0);
    let edges = word(words, 1);
    Records {
        start: 3 + 5 * nodes + 8 * edges,
        count: found.count,
        end: found.end,
    }
}

// The answers of all `count` parts, whose records stand in the words from index `start` to index `end`. How many beliefs and endings there are.
fn answer_parts(
    table: &LogTable,
    w: &mut [f32],
    words: &mut [u32],
    start: usize,
    count: usize,
    end: usize,
    evidence: &[f32],
    settings: Settings,
    limit: u32,
    belief_numbers: &mut [u32],
    belief_floats: &mut [f32],
    ending_numbers: &mut [u32],
    ending_floats: &mut [f32],
) -> Filled
    requires some_cut { SomeCut (settings_from settings limit) start count end evidence.now words.old (length w.old) (answers_with belief_numbers.old belief_floats.old ending_numbers.old ending_floats.old) }
    ensures { (b : Bale) → Cut (settings_from settings limit) b start count end evidence.now words.old (length w.old) (answers_with belief_numbers.old belief_floats.old ending_numbers.old ending_floats.old) → Written (answer (settings_from settings limit) b) (answers_with belief_numbers.old belief_floats.old ending_numbers.old ending_floats.old) result.beliefs result.endings (answers_with belief_numbers.new belief_floats.new ending_numbers.new ending_floats.new) }
{
    let mut at = start;
    let mut beliefs = 0;
    let mut endings = 0;
    for number in 0..count {
        let next = at + record_len(words, at);
        let out = end - at;
        let belief_at = 2 * beliefs;
        let ending_at = 4 * endings;
        let counts = answer_part(
            table,
            w,
            &mut words[at..],
            out,
            evidence,
            settings,
            limit,
            number as u32,
            &mut belief_numbers[beliefs..],
            &mut belief_floats[belief_at..],
            &mut ending_numbers[ending_at..],
            &mut ending_floats[endings..],
        );
        beliefs += counts.beliefs;
        endings += counts.endings;
        at = next;
    }
    Filled {
        beliefs: beliefs,
        endings: endings,
    }
}

// The work as a call leaves it, for calls that may make no run.
pub fn clear_work(w: &mut [f32], words: &mut [u32])
    ensures { (w.new ≡ replicate (length w.old) zeroᶠ) × (words.new ≡ replicate (length words.old) 0) }
{
    w.fill(0.0);
    words.fill(0);
}

// An accepted call: the graph is built and cut in the work, its parts are answered, and the work is left zero.
pub(crate) fn calibrate_accepted(
    w: &mut [f32],
    words: &mut [u32],
    settings: Settings,
    limit: u32,
    grades: u32,
    evidence: &[f32],
    pairs: &[u32],
    belief_numbers: &mut [u32],
    belief_floats: &mut [f32],
    ending_numbers: &mut [u32],
    ending_floats: &mut [f32],
) -> Filled
    requires { AcceptedCall (settings_from settings limit) grades evidence.now pairs.now (length w.old) (length words.old) (answers_with belief_numbers.old belief_floats.old ending_numbers.old ending_floats.old) }
    ensures w_after { (w.new ≡ replicate (length w.old) zeroᶠ) × (words.new ≡ replicate (length words.old) 0) }
    ensures written { Written (answer (settings_from settings limit) (bale_of grades evidence.now pairs.now)) (answers_with belief_numbers.old belief_floats.old ending_numbers.old ending_floats.old) result.beliefs result.endings (answers_with belief_numbers.new belief_floats.new ending_numbers.new ending_floats.new) }
{
    let table = LogTable::new();
    let records = cut_graph(words, grades, evidence, pairs);
    let counts = answer_parts(
        &table,
        w,
        words,
        records.start,
        records.count,
        records.end,
        evidence,
        settings,
        limit,
        belief_numbers,
        belief_floats,
        ending_numbers,
        ending_floats,
    );
    clear_work(w, words);
    counts
}
