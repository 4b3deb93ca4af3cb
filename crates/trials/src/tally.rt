// How often the beliefs of a made-up bale agree with what was drawn.
ghost use Rattle.std.specs.Prelude.{◌≡◌, not, ◌+◌, ◌^◌, ◌<◌};
ghost use Rattle.std.proofs.Math.Option.{some};
ghost use Rattle.definition.specs.Lists.{how_many};
ghost use Rattle.definition.specs.Trials.{agrees_with, agrees, differs};
ghost use Rattle.report_laws.specs.Counts.{one_if};
ghost use Rattle.trials.specs.Tally.{Tallied, judged_to};

use reads::is_above_half;

// So many beliefs that agreed, and so many that did not.
#[derive(Clone, Copy)]
pub(crate) struct Tally {
    pub agreed: u32,
    pub differed: u32,
}

fn is_agreed(drawn: bool, present: f32) -> bool
    ensures { result ≡ agrees_with drawn (some present) }
{
    let above = is_above_half(present);
    if drawn {
        return above;
    }
    !above
}

fn add(before: Tally, agreed: bool) -> Tally
    requires { (before.agreed + 1 < 2 ^ 32) × (before.differed + 1 < 2 ^ 32) }
    ensures { (result.agreed ≡ before.agreed + one_if agreed) × (result.differed ≡ before.differed + one_if (not agreed)) }
{
    if agreed {
        return Tally {
            agreed: before.agreed + 1,
            differed: before.differed,
        };
    }
    Tally {
        agreed: before.agreed,
        differed: before.differed + 1,
    }
}

// Adds the first `count` beliefs, a number and two floats each; `drawn` says of each grade whether it was drawn present.
pub(crate) fn count_beliefs(
    count: usize,
    numbers: &[u32],
    floats: &[f32],
    drawn: &[bool],
    before: Tally,
) -> Tally
    requires { Tallied count numbers.now floats.now drawn.now before.agreed before.differed }
    ensures { (result.agreed ≡ before.agreed + how_many agrees (judged_to count numbers.now floats.now drawn.now)) × (result.differed ≡ before.differed + how_many differs (judged_to count numbers.now floats.now drawn.now)) }
{
    let mut tally = before;
    for i in 0..count {
        let g = numbers[i] as usize;
        tally = add(tally, is_agreed(drawn[g], floats[2 * i + 1]));
    }
    tally
}
