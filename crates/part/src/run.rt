// The run of a part (`zero_lookahead_bp`): the opening, five sweeps, then scheduled steps.
ghost use Rattle.std.specs.Prelude.{◌≡◌, List, Float};
ghost use Rattle.definition.specs.Settings as definition;
ghost use Rattle.definition.specs.Directions.{MessageGraph};
ghost use Rattle.definition.specs.Sweeps.{Store};
ghost use Rattle.definition.specs.Priorities.{highest_priority};
ghost use Rattle.definition.specs.Run.{State, loop};
ghost use Rattle.priorities.specs.Answer.{highest_of};
ghost use Rattle.zero_lookahead.specs.Part.{Given, PartRoom, SomePartRoom, StandsFor, SomeStanding, Runs, KeptFront};
ghost use Rattle.part.specs.Ending.{Ran, Ends};
ghost use Rattle.part.specs.RunSweeps.{swept};
ghost use Rattle.part.specs.RunQueue.{SomeQueue};
ghost use Rattle.part.specs.RunSteps.{AtStart, SomeStart};

use array_utils::LogTable;
use messages::directions::word;
use priorities::{Highest, highest_priority, leaves_for};
use steps::log::Changed;
use zero_lookahead::begin::begin;
use zero_lookahead::open::open;
use zero_lookahead::settings::Settings;
use zero_lookahead::step::scheduled_step;
use zero_lookahead::sweep::sweep;

// How a part ends, with the last residual.
#[derive(Clone, Copy)]
pub enum Ending {
    Limit(f32),
    Settled(f32),
    Empty,
}

#[derive(Clone, Copy)]
pub struct Ended {
    pub ending: Ending,
    pub steps: u32,
}

fn five_sweeps(
    table: &LogTable,
    w: &mut [f32],
    words: &mut [u32],
    out: usize,
    evidence: &[f32],
    settings: Settings,
)
    requires some_standing { SomeStanding settings out evidence.now words.old w.old }
    ensures kept_front { KeptFront out words.old words.new }
    ensures stands_for { (s : definition.Settings) (t : MessageGraph) (x : Store) → StandsFor s t out evidence.now x words.old w.old → Given s settings → StandsFor s t out evidence.now (swept s t 5 x) words.new w.new }
{
    for _ in 0..5_u32 {
        sweep(table, w, words, out, evidence, settings);
    }
}

// What waits with the largest amount.
fn highest(words: &[u32], out: usize) -> Option<Highest>
    requires { SomeQueue out words.now }
    ensures { (s : definition.Settings) (t : MessageGraph) (evidence : List Float) (x : State) (w : List Float) → Runs s t out evidence x words.now w → highest_of result ≡ highest_priority x.priorities }
{
    let nodes = word(words, 0);
    let edges = word(words, 1);
    let leaves = leaves_for(2 * edges);
    let from = out + (6 * edges + 1) + nodes;
    highest_priority(&words[from..from + 2 * leaves], leaves)
}

// At most so many scheduled steps. The tests come in this order: the limit, the last residual, the queue.
fn scheduled_steps(
    table: &LogTable,
    w: &mut [f32],
    words: &mut [u32],
    out: usize,
    evidence: &[f32],
    settings: Settings,
    limit: u32,
) -> Ended
    requires some_start { SomeStart settings out evidence.now words.old w.old }
    ensures kept_front { KeptFront out words.old words.new }
    ensures ends { (s : definition.Settings) (t : MessageGraph) (x : State) → Runs s t out evidence.now x words.old w.old → Given s settings → AtStart t x → Ends s t out evidence.now (loop s t limit x) result.ending result.steps words.new w.new }
{
    let tolerance = settings.tolerance;
    let mut steps: u32 = 0;
    let mut last: f32 = 3.4028235e38;
    let mut changed = Changed::All;
    let ending = loop {
        if steps == limit {
            break Ending::Limit(last);
        }
        if !(tolerance < last) {
            break Ending::Settled(last);
        }
        let Some(top) = highest(words, out) else {
            break Ending::Empty;
        };
        let d = top.direction as usize;
        changed = scheduled_step(table, w, words, out, evidence, settings, changed, d);
        last = top.amount;
        steps += 1;
    };
    Ended { ending, steps }
}

pub fn run(
    table: &LogTable,
    w: &mut [f32],
    words: &mut [u32],
    out: usize,
    evidence: &[f32],
    settings: Settings,
    limit: u32,
) -> Ended
    requires some_part_room { SomePartRoom settings out evidence.now words.old w.old }
    ensures kept_front { KeptFront out words.old words.new }
    ensures ran { (s : definition.Settings) (t : MessageGraph) → PartRoom s t out evidence.now words.old w.old → Given s settings → s.loop_limit ≡ limit → Ran s t out evidence.now result.ending result.steps words.new w.new }
{
    open(table, w, words, out, evidence, settings);
    five_sweeps(table, w, words, out, evidence, settings);
    begin(table, w, words, out, settings);
    // The loop's count starts at 5.
    let left = limit.saturating_sub(5);
    scheduled_steps(table, w, words, out, evidence, settings, left)
}
