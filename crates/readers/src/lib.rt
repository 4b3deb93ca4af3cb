// Two readers over one belt: each upper read in turn is matched with the lowest-indexed unused lower read that it may have.
#![tactic(auto)]

ghost use Rattle.std.specs.Prelude.{◌≡◌, ◌+◌, ◌/◌, ◌≤◌, ◌<◌, ltb, length};
ghost use Rattle.definition.specs.Refusals.{lowest_place, accepted};
ghost use Rattle.definition.specs.Call.{overwrite};
ghost use Rattle.definition.specs.Readers.{reads_of, matches, falls, match_verdict, match_numbers, match_call};
ghost use Rattle.claims.specs.Matching.{InOrder};
ghost use Rattle.checks.specs.Verdicts.{place_of, verdict_of};
ghost use Rattle.readers.specs.Outcomes.{result_of};
ghost use Rattle.readers.specs.Scan.{read_of, is_passed, Passed, Skipped, is_open, open_tests};
ghost use Rattle.readers.specs.Turns.{Turnable, Turned};

use checks::{Check, Refusal, refuse};

// ---- 1, 2 and 10

// The first read whose tick is below that of the one before it.
fn first_fall(reads: &[u32]) -> Option<u32>
    requires { length reads.now / 2 ≤ 1024 }
    ensures { place_of result ≡ lowest_place (falls (reads_of reads.now)) }
{
    for i in 1..reads.len() / 2 {
        if reads[2 * i] < reads[2 * i - 2] {
            return Some(i as u32);
        }
    }
    None
}

fn check(upper: &[u32], lower: &[u32], size: usize) -> Result<(), Refusal>
    ensures { verdict_of result ≡ match_verdict (reads_of upper.now) (reads_of lower.now) size }
{
    let uppers = upper.len() / 2;
    let lowers = lower.len() / 2;
    if 1024 < uppers || 1024 < lowers {
        return Err(Refusal {
            check: Check::TooMany,
            place: 0,
        });
    }
    if size < 2 * uppers.min(lowers) {
        return Err(Refusal {
            check: Check::BuffersTooSmall,
            place: 0,
        });
    }
    refuse(Check::OutOfOrder, first_fall(upper))?;
    if let Some(j) = first_fall(lower) {
        return Err(Refusal {
            check: Check::OutOfOrder,
            place: uppers as u32 + j,
        });
    }
    Ok(())
}

// ---- one upper read. A lower read's mark is 0 while it is unused.

// Over a window before t. In 64 bits, since the sum may not fit 32.
fn is_long_before(s: u32, t: u32, window: u32) -> bool
    ensures { result ≡ ltb (s + window) t }
{
    (s as u64) + (window as u64) < (t as u64)
}

// Used, or too early: no upper read from this tick on may have it.
fn is_passed(lower: &[u32], marks: &[u8; 1024], j: usize, tick: u32, window: u32) -> bool
    requires { (length lower.now / 2 ≤ 1024) × (j < length lower.now / 2) }
    ensures { result ≡ is_passed window (reads_of lower.now) marks.now tick j }
{
    marks[j] != 0 || is_long_before(lower[2 * j], tick, window)
}

// The first lower read from `first` on that is not passed. It never goes back, so that all turns together pass a read once.
fn skip(lower: &[u32], marks: &[u8; 1024], first: usize, tick: u32, window: u32) -> usize
    requires lower_len_bound { (length lower.now / 2 ≤ 1024) × (first ≤ length lower.now / 2) }
    requires passed { Passed window (reads_of lower.now) marks.now tick first }
    ensures { Skipped window (reads_of lower.now) marks.now tick result }
{
    let count = lower.len() / 2;
    for j in first..count {
        if !is_passed(lower, marks, j, tick, window) {
            return j;
        }
    }
    count
}

fn is_open(lower: &[u32], marks: &[u8; 1024], j: usize, tick: u32, marker: u32, window: u32) -> bool
    requires { (length lower.now / 2 ≤ 1024) × (j < length lower.now / 2) }
    ensures { result ≡ is_open window (reads_of lower.now) marks.now (read_of tick marker) j }
{
    if lower[2 * j + 1] != marker {
        return false;
    }
    if marks[j] != 0 {
        return false;
    }
    if is_long_before(lower[2 * j], tick, window) {
        return false;
    }
    !is_long_before(tick, lower[2 * j], window)
}

// The lowest lower read that is unused and may be had. The search ends at the first that is too late, since all behind it are too.
fn find(
    lower: &[u32],
    marks: &[u8; 1024],
    first: usize,
    tick: u32,
    marker: u32,
    window: u32,
) -> Option<u32>
    requires lower_len_bound { (length lower.now / 2 ≤ 1024) × (first ≤ length lower.now / 2) × InOrder (reads_of lower.now) }
    requires passed { Passed window (reads_of lower.now) marks.now tick first }
    ensures { place_of result ≡ lowest_place (open_tests window (reads_of lower.now) marks.now (read_of tick marker)) }
{
    for j in first..lower.len() / 2 {
        if is_long_before(tick, lower[2 * j], window) {
            return None;
        }
        if is_open(lower, marks, j, tick, marker, window) {
            return Some(j as u32);
        }
    }
    None
}

// ---- all upper reads

// Writes upper read i's match, if it has one, and answers how many there are then.
fn match_next(
    upper: &[u32],
    lower: &[u32],
    window: u32,
    i: usize,
    first: usize,
    count: usize,
    marks: &mut [u8; 1024],
    answer: &mut [u32],
) -> usize
    requires { Turnable upper.now lower.now window i first count marks.old answer.old }
    ensures { Turned upper.now lower.now window i first result marks.new answer.old answer.new }
{
    let tick = upper[2 * i];
    let marker = upper[2 * i + 1];
    if let Some(j) = find(lower, marks, first, tick, marker, window) {
        marks[j as usize] = 1;
        answer[2 * count] = i as u32;
        answer[2 * count + 1] = j;
        return count + 1;
    }
    count
}

fn match_all(upper: &[u32], lower: &[u32], window: u32, answer: &mut [u32]) -> u32
    requires { match_verdict (reads_of upper.now) (reads_of lower.now) (length answer.old) ≡ accepted }
    ensures { (result ≡ length (matches window (reads_of upper.now) (reads_of lower.now))) × (answer.new ≡ overwrite (match_numbers (matches window (reads_of upper.now) (reads_of lower.now))) answer.old) }
{
    let mut marks = [0u8; 1024];
    let mut first: usize = 0;
    let mut count: usize = 0;
    for i in 0..upper.len() / 2 {
        first = skip(lower, &marks, first, upper[2 * i], window);
        count = match_next(upper, lower, window, i, first, count, &mut marks, answer);
    }
    count as u32
}

// The call: each match as two numbers at the front of `answer`, upper index then lower.
pub fn match_reads(
    upper: &[u32],
    lower: &[u32],
    window: u32,
    answer: &mut [u32],
) -> Result<u32, Refusal>
    ensures { result_of result answer.new ≡ match_call upper.now lower.now window answer.old }
{
    check(upper, lower, answer.len())?;
    Ok(match_all(upper, lower, window, answer))
}
