// A field of a line, with the byte that ends it. Each function answers the place after what it has written.
ghost use Rattle.std.specs.Prelude.{◌≡◌, [], ◌∷◌, not, ◌+◌, ◌≤◌, ◌<◌, T, length};
ghost use Rattle.std.specs.Float.Ieee.{is_nan};
ghost use Rattle.definition.specs.Listing.{decimal, hex, hex_digit};
ghost use Rattle.listing.specs.Writing.{Written, field};
ghost use Rattle.listing.specs.Digits.{digits};

fn put_byte(out: &mut [u8], at: usize, byte: u8) -> usize
    requires { at < length out.old }
    ensures { Written out.old at (byte ∷ []) out.new result }
{
    out[at] = byte;
    at + 1
}

fn hex_digit(n: u64) -> u8
    requires { n < 16 }
    ensures { result ≡ hex_digit n }
{
    if n < 10 { 48 + n as u8 } else { 55 + n as u8 }
}

// The last digits of n to the base, so many of them, the last one first.
fn put_digits(out: &mut [u8], at: usize, count: usize, n: u64, base: u64) -> usize
    requires base_nonzero { (0 < base) × (base ≤ 16) }
    requires count_in_bounds { at + count ≤ length out.old }
    ensures { Written out.old at (digits base count n) out.new result }
{
    let mut rest = n;
    for left in (0..count).rev() {
        out[at + left] = hex_digit(rest % base);
        rest /= base;
    }
    at + count
}

// How many digits n has.
fn decimal_len(n: u64) -> usize
    ensures { result ≡ length (decimal n) }
{
    let mut count: usize = 1;
    let mut rest = n;
    while 9 < rest {
        count += 1;
        rest /= 10;
    }
    count
}

fn put_decimal(out: &mut [u8], at: usize, n: u64) -> usize
    requires { at + length (decimal n) ≤ length out.old }
    ensures { Written out.old at (decimal n) out.new result }
{
    let count = decimal_len(n);
    put_digits(out, at, count, n, 10)
}

// The eight digits of the bits of x.
fn put_hex(out: &mut [u8], at: usize, x: f32) -> usize
    requires t { T (not (is_nan x)) }
    requires at_in_bounds { at + 8 ≤ length out.old }
    ensures { Written out.old at (hex x) out.new result }
{
    put_digits(out, at, 8, f32::to_bits(x) as u64, 16)
}

pub(crate) fn put_word(out: &mut [u8], at: usize, text: &[u8], after: u8) -> usize
    requires { at + length text.now < length out.old }
    ensures { Written out.old at (field text.now after) out.new result }
{
    let end = at + text.len();
    out[at..end].copy_from_slice(text);
    put_byte(out, end, after)
}

pub(crate) fn put_number(out: &mut [u8], at: usize, n: u64, after: u8) -> usize
    requires { at + length (decimal n) < length out.old }
    ensures { Written out.old at (field (decimal n) after) out.new result }
{
    let end = put_decimal(out, at, n);
    put_byte(out, end, after)
}

pub(crate) fn put_float(out: &mut [u8], at: usize, x: f32, after: u8) -> usize
    requires t { T (not (is_nan x)) }
    requires at_in_bounds { at + 8 < length out.old }
    ensures { Written out.old at (field (hex x) after) out.new result }
{
    let end = put_hex(out, at, x);
    put_byte(out, end, after)
}
