// What benchmark/graph compares and times: a call is checked, and if it is accepted its graph is built and cut into components.
ghost use Rattle.std.specs.Prelude.{length};
ghost use Rattle.definition.specs.Refusals.{bale_of, verdict};
ghost use Rattle.definition.specs.Settings.{settings_of};
ghost use Rattle.checks.specs.Verdicts.{verdict_of};
ghost use Rattle.bench.specs.Graphs.{CutAfter, Judged, lent_of};

use checks::{Buffers, Refusal};
use components::graph::build_components;

#[repr(C)]
#[derive(Clone, Copy)]
pub struct Reply {
    pub number: u32,
    pub place: u32,
    pub count: u32,
    pub end: u32,
}

// A refused call leaves the words as they are.
fn cut_judged(
    judged: Result<(), Refusal>,
    words: &mut [u32],
    grades: u32,
    evidence: &[f32],
    pairs: &[u32],
) -> Reply
    requires { Judged (verdict_of judged) grades evidence.now pairs.now (length words.old) }
    ensures { CutAfter (verdict_of judged) (bale_of grades evidence.now pairs.now) words.old words.new result.number result.place result.count result.end }
{
    if let Err(refusal) = judged {
        return Reply {
            number: refusal.check.number(),
            place: refusal.place,
            count: 0,
            end: 0,
        };
    }
    let markers = (evidence.len() / 2) as u32;
    let found = build_components(words, grades, markers, pairs);
    Reply {
        number: 0,
        place: 0,
        count: found.count as u32,
        end: found.end as u32,
    }
}

// On a refusal its number and place, two zeros, and the words stay. Else two zeros, how many components there are and where their records end.
// The words have the length that both work buffers have; the others are as long as any call asks.
#[unsafe(no_mangle)]
pub extern "C" fn cut_graph(
    alpha: f32,
    beta: f32,
    prior: f32,
    regularised: bool,
    tolerance: f32,
    loop_limit: u32,
    grades: u32,
    evidence: &[f32],
    pairs: &[u32],
    words: &mut [u32],
) -> Reply
    ensures { CutAfter (verdict (settings_of alpha beta prior regularised tolerance loop_limit) (lent_of (length words.old)) (bale_of grades evidence.now pairs.now)) (bale_of grades evidence.now pairs.now) words.old words.new result.number result.place result.count result.end }
{
    let lent = Buffers {
        work_floats: words.len(),
        work_numbers: words.len(),
        belief_numbers: 1024,
        belief_floats: 2048,
        ending_numbers: 4096,
        ending_floats: 1024,
    };
    let judged = checks::check(
        alpha,
        beta,
        prior,
        regularised,
        tolerance,
        loop_limit,
        grades,
        evidence,
        pairs,
        lent,
    );
    cut_judged(judged, words, grades, evidence, pairs)
}
