// Replays a list of bale files and shifts: of each the listing is made, and compared byte by byte with the Rust's, which stands behind it. The list is the
// file `stdin`, made by oracle/replay_list. The last line says how many files there were, and how many listings differ.
//
// What is proved: a file and a text are counted as one file, and as one that differs exactly if the definition's listing of it, as a bale or as a shift,
// is another text (`count_entry`); and the two numbers are the counts over some list of at most MOST_FILES entries: how many there are, and how many of
// them differ (`replay_all`). Of a reader whose bytes are known these entries are what it gave, one after the other (`EntriesIn` of specs/Entries). Of the
// system's input no contract says which bytes it gives. So what is only run is that the list is `stdin`, and that it is read to its end.
#![tactic(auto)]

ghost use Rattle.std.specs.Prelude.{◌≡◌, ◌+◌, ◌*◌, ◌≤◌, ◌<◌, length, IfSome, IfOk};
ghost use Rattle.std.specs.Str.{bytes_eq};
ghost use Rattle.replay.specs.Entries.{listing_as, whole, differs, one_more, Fits, HeadTaken, EntryTaken, ReplayedAll, Stepped};

mod listed;

use crate::listed::{is_listing, is_shift_listing};
use std::io;
use streams::read_full;

const MOST_FILES: u64 = 1000000;

#[derive(Clone, Copy)]
struct Counts {
    files: u64,
    differ: u64,
}

// What stands before bytes of the list: their length, and whether they are a shift.
#[derive(Clone, Copy)]
struct Head {
    len: usize,
    shift: bool,
}

// Whether a file is a shift, its length and that of the text behind it.
#[derive(Clone, Copy)]
struct Entry {
    shift: bool,
    file_len: usize,
    text_len: usize,
}

// The list breaks off in an entry.
#[derive(Clone, Copy)]
struct Broken;

// Three bytes, the lowest first.
fn number_of(a: u8, b: u8, c: u8) -> usize
    ensures { result ≡ a + 256 * b + 65536 * c }
{
    a as usize + 256 * (b as usize) + 65536 * (c as usize)
}

// Three bytes are the length, and the byte above them tells a shift. There is none where the list ends, and of more than 4,096 bytes.
fn read_head<R: io::Read>(from: &mut R) -> Option<Head>
    ensures len { IfSome result (λ head. head.len ≤ 4096) }
    ensures bytes { HeadTaken (R.remaining from.old) (R.remaining from.new) result }
{
    let mut four = [0u8; 4];
    let got = read_full(from, &mut four);
    let n = number_of(four[0], four[1], four[2]);
    if got < 4 || 4096 < n {
        return None;
    }
    Some(Head {
        len: n,
        shift: four[3] != 0,
    })
}

// Whether this text is the listing of the file, as a bale or as a shift.
fn is_listed(shift: bool, file: &[u8], text: &[u8]) -> bool
    requires { length file.now ≤ 4096 }
    ensures { result ≡ bytes_eq (listing_as shift file.now) text.now }
{
    if shift {
        return is_shift_listing(file, text);
    }
    is_listing(file, text)
}

// Reads the next file and the text behind it to the front of the two buffers, if the list is not over.
fn read_entry<R: io::Read>(
    from: &mut R,
    file: &mut [u8],
    text: &mut [u8],
) -> Result<Option<Entry>, Broken>
    requires { (length file.old ≡ 4096) × (length text.old ≡ 4096) }
    ensures fits { IfOk result (λ read. IfSome read Fits) }
    ensures bytes { EntryTaken (R.remaining from.old) (R.remaining from.new) file.new text.new result }
{
    let Some(head) = read_head(from) else {
        return Ok(None);
    };
    let n = head.len;
    let got = read_full(from, &mut file[..n]);
    let behind = read_head(from);
    if got < n {
        return Err(Broken);
    }
    let Some(behind) = behind else {
        return Err(Broken);
    };
    let k = behind.len;
    if read_full(from, &mut text[..k]) < k {
        return Err(Broken);
    }
    Ok(Some(Entry {
        shift: head.shift,
        file_len: n,
        text_len: k,
    }))
}

fn count_one(counts: Counts, differs: bool) -> Counts
    requires { (counts.differ ≤ counts.files) × (counts.files < 1000000) }
    ensures { result ≡ one_more differs counts }
{
    let mut next = counts;
    next.files += 1;
    if differs {
        next.differ += 1;
    }
    next
}

// A file with the text behind it.
fn count_entry(counts: Counts, shift: bool, file: &[u8], text: &[u8]) -> Counts
    requires file_len_bound { length file.now ≤ 4096 }
    requires differ_le_files { (counts.differ ≤ counts.files) × (counts.files < 1000000) }
    ensures { result ≡ one_more (differs (whole shift file.now text.now)) counts }
{
    let same = is_listed(shift, file, text);
    count_one(counts, !same)
}

// Reads the next entry and counts it, if the list is not over. One that breaks off differs.
fn replay_next<R: io::Read>(from: &mut R, counts: Counts) -> Option<Counts>
    requires { (counts.differ ≤ counts.files) × (counts.files < 1000000) }
    ensures { Stepped (R.remaining from.old) (R.remaining from.new) counts result }
{
    let mut file = [0; 4096];
    let mut text = [0; 4096];
    match read_entry(from, &mut file, &mut text) {
        Ok(Some(entry)) => Some(count_entry(
            counts,
            entry.shift,
            &file[..entry.file_len],
            &text[..entry.text_len],
        )),
        Ok(None) => None,
        Err(_) => Some(count_one(counts, true)),
    }
}

fn replay_all<R: io::Read>(from: &mut R) -> Counts
    ensures { ReplayedAll (R.remaining from.old) (R.remaining from.new) result }
{
    let mut counts = Counts {
        files: 0,
        differ: 0,
    };
    // What a turn counts is the next turn's, and not an index.
    while counts.files < MOST_FILES {
        let Some(next) = replay_next(from, counts) else {
            break;
        };
        counts = next;
    }
    counts
}

fn main(rt: HostRuntime) {
    let counts = replay_all(&mut rt.stdin());
    let files = counts.files;
    let differ = counts.differ;
    let _ = println!(rt; "{files} files, {differ} differ");
}
