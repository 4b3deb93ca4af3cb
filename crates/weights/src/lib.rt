// The morning's lines, `bale,kilograms`, read one by one from lent bytes.
#![tactic(auto)]

ghost use Rattle.std.specs.Prelude.{◌≤◌, ◌≡◌, IfSome};
ghost use Rattle.definition.specs.Tonnage.{at_most, next_digit};
ghost use Rattle.weights.specs.Reading.{so_far, NumberAt, LineAt};

// A line, and the place after its line feed.
#[derive(Clone, Copy, Debug, PartialEq, Eq)]
pub struct Line {
    pub bale: u32,
    pub kilograms: u32,
    pub after: usize,
}

// What stands there is no good line.
#[derive(Clone, Copy, Debug, PartialEq, Eq)]
pub struct Malformed;

// A number, and the place after the byte that ends it.
#[derive(Clone, Copy)]
struct Number {
    value: u32,
    after: usize,
}

const MOST_BALE: u32 = 9999;

const MOST_KILOGRAMS: u32 = 2000;

fn at_most(value: u32, most: u32) -> Option<u32>
    ensures { so_far result ≡ at_most most value }
{
    if value <= most { Some(value) } else { None }
}

// What was read so far, with one more digit. None follows a leading 0.
fn next_digit(read: Option<u32>, byte: u8, most: u32) -> Option<u32>
    requires { (IfSome read (λ v. v ≤ most)) × (most ≤ 9999) }
    ensures { so_far result ≡ next_digit most (so_far read) byte }
{
    if !byte.is_ascii_digit() {
        return None;
    }
    let digit = u32::from(byte - b'0');
    match read {
        None => at_most(digit, most),
        Some(0) => None,
        Some(value) => at_most(10 * value + digit, most),
    }
}

// The number from a place on, up to the byte `end`.
fn read_number(csv: &[u8], at: usize, end: u8, most: u32) -> Option<Number>
    requires { most ≤ 9999 }
    ensures { NumberAt most end csv.now at result }
{
    let mut read = None;
    for i in at..csv.len() {
        let byte = csv[i];
        if byte == end {
            let value = read?;
            return Some(Number {
                value: value,
                after: i + 1,
            });
        }
        let more = next_digit(read, byte, most)?;
        read = Some(more);
    }
    None
}

// The line from a place on, if one is left. Its bale is at least `next`.
pub fn read_line(csv: &[u8], at: usize, next: u32) -> Result<Option<Line>, Malformed>
    ensures { LineAt next csv.now at result }
{
    if csv.len() <= at {
        return Ok(None);
    }
    let bale = read_number(csv, at, b',', MOST_BALE).ok_or(Malformed)?;
    if bale.value < next {
        return Err(Malformed);
    }
    let kilograms = read_number(csv, bale.after, b'\n', MOST_KILOGRAMS).ok_or(Malformed)?;
    if kilograms.value == 0 {
        return Err(Malformed);
    }
    Ok(Some(Line {
        bale: bale.value,
        kilograms: kilograms.value,
        after: kilograms.after,
    }))
}
