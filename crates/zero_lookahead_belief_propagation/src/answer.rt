// What a part yields: its run's ending, and the beliefs of its grades.
ghost use Rattle.std.specs.Prelude.{◌≡◌, [], ◌∷◌, ℕ, ◌≤◌, ◌<◌, length};
ghost use Rattle.definition.specs.FactorGraph.{Bale};
ghost use Rattle.definition.specs.Answer.{ending_number, ending_residual, answers_of, part_answer};
ghost use Rattle.definition.specs.Directions.{message_graph_of};
ghost use Rattle.definition.specs.Call.{overwrite};
ghost use Rattle.zero_lookahead.specs.Part.{KeptFront};
ghost use Rattle.part.specs.Ending.{ending_from};
ghost use Rattle.zero_lookahead_belief_propagation.specs.Answered.{answers_with, Written, part_at};
ghost use Rattle.zero_lookahead_belief_propagation.specs.AnsweredPart.{settings_from, Large, SomeLarge, PartRuns, Asked, SomeAsked};

use array_utils::LogTable;
use messages::directions::fill_directions;
use part::beliefs::beliefs;
use part::run::{Ending, run};
use zero_lookahead::settings::Settings;

// An ending as it is answered.
#[derive(Clone, Copy)]
struct EndingWords {
    number: u32,
    residual: f32,
}

impl From<Ending> for EndingWords {
    ghost from_gives = { λ e w. (w.number ≡ ending_number (ending_from e)) × (w.residual ≡ ending_residual (ending_from e)) };

    fn from(ending: Ending) -> EndingWords {
        match ending {
            Ending::Limit(r) => EndingWords {
                number: 0,
                residual: r,
            },
            Ending::Settled(r) => EndingWords {
                number: 1,
                residual: r,
            },
            Ending::Empty => EndingWords {
                number: 2,
                residual: 0.0,
            },
        }
    }
}

// The four numbers and the float of a part's ending.
fn end_part(
    number: u32,
    ending: Ending,
    steps: u32,
    count: usize,
    numbers: &mut [u32],
    floats: &mut [f32],
)
    requires { (4 ≤ length numbers.old) × (1 ≤ length floats.old) × (count < 4294967296) }
    ensures numbers_after { numbers.new ≡ overwrite (number ∷ ending_number (ending_from ending) ∷ steps ∷ count ∷ []) numbers.old }
    ensures floats_after { floats.new ≡ overwrite (ending_residual (ending_from ending) ∷ []) floats.old }
{
    let e = EndingWords::from(ending);
    numbers[0] = number;
    numbers[1] = e.number;
    numbers[2] = steps;
    numbers[3] = count as u32;
    floats[0] = e.residual;
}

// How a part's run ended, and how many beliefs it has.
#[derive(Clone, Copy)]
struct PartRun {
    ending: Ending,
    steps: u32,
    beliefs: usize,
}

// A part of over 2 nodes, whose record is at the front of the words, is run to its end, and its beliefs are written.
fn run_part(
    table: &LogTable,
    w: &mut [f32],
    words: &mut [u32],
    out: usize,
    evidence: &[f32],
    settings: Settings,
    limit: u32,
    numbers: &mut [u32],
    floats: &mut [f32],
) -> PartRun
    requires some_large { SomeLarge (settings_from settings limit) out evidence.now words.old (length w.old) (length numbers.old) (length floats.old) }
    ensures kept_front { KeptFront out words.old words.new }
    ensures part_runs { (b : Bale) (n : ℕ) → Large (settings_from settings limit) b n out evidence.now words.old (length w.old) (length numbers.old) (length floats.old) → PartRuns (part_answer (settings_from settings limit) n (part_at b n) (message_graph_of b (part_at b n))) numbers.old floats.old result.ending result.steps result.beliefs numbers.new floats.new }
{
    fill_directions(words, 0, out);
    let ended = run(table, w, words, out, evidence, settings, limit);
    let count = beliefs(table, w, words, out, settings, numbers, floats);
    let ending = ended.ending;
    PartRun {
        ending: ending,
        steps: ended.steps,
        beliefs: count,
    }
}

// How many beliefs and endings were written.
#[derive(Clone, Copy)]
pub struct Filled {
    pub beliefs: usize,
    pub endings: usize,
}

// Part `number`, whose record is at the front of the words: its answer at the fronts of the four answer slices. A part of at most 2 nodes has none.
pub fn answer_part(
    table: &LogTable,
    w: &mut [f32],
    words: &mut [u32],
    out: usize,
    evidence: &[f32],
    settings: Settings,
    limit: u32,
    number: u32,
    belief_numbers: &mut [u32],
    belief_floats: &mut [f32],
    ending_numbers: &mut [u32],
    ending_floats: &mut [f32],
) -> Filled
    requires some_asked { SomeAsked (settings_from settings limit) number out evidence.now words.old (length w.old) (answers_with belief_numbers.old belief_floats.old ending_numbers.old ending_floats.old) }
    ensures kept_front { KeptFront out words.old words.new }
    ensures written { (b : Bale) → Asked (settings_from settings limit) b number out evidence.now words.old (length w.old) (answers_with belief_numbers.old belief_floats.old ending_numbers.old ending_floats.old) → Written (answers_of (settings_from settings limit) b number (part_at b number)) (answers_with belief_numbers.old belief_floats.old ending_numbers.old ending_floats.old) result.beliefs result.endings (answers_with belief_numbers.new belief_floats.new ending_numbers.new ending_floats.new) }
{
    if words[0] <= 2 {
        return Filled {
            beliefs: 0,
            endings: 0,
        };
    }
    let part = run_part(
        table,
        w,
        words,
        out,
        evidence,
        settings,
        limit,
        belief_numbers,
        belief_floats,
    );
    let count = part.beliefs;
    let ending = part.ending;
    end_part(
        number,
        ending,
        part.steps,
        count,
        ending_numbers,
        ending_floats,
    );
    Filled {
        beliefs: count,
        endings: 1,
    }
}
