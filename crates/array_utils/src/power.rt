// Powers by the bits of the exponent, from the lowest: a single one, or all from the 0th on.
ghost use Rattle.std.specs.Prelude.{◌≡◌, map, length};
ghost use Rattle.definition.specs.Lists.{range};
ghost use Rattle.definition.specs.Floats.{powi};

pub fn powi(base: f32, n: u32) -> f32
    ensures { result ≡ powi base n }
{
    let mut product: f32 = 1.0;
    let mut square = base;
    let mut rest = n;
    // The square behind the last bit would go unused, and it may be subnormal, which is slow.
    while 1 < rest {
        if rest % 2 == 1 {
            product = product * square;
        }
        square = square * square;
        rest = rest / 2;
    }
    if rest == 1 { product * square } else { product }
}

// One product each: the power without the exponent's highest bit, times that bit's square.
pub fn powers(out: &mut [f32], base: f32)
    ensures { out.new ≡ map (powi base) (range 0 (length out.old)) }
{
    if out.len() == 0 {
        return;
    }
    out[0] = 1.0;
    let mut square = base;
    let mut bit: usize = 1;
    for i in 1..out.len() {
        out[i] = out[i - bit] * square;
        let next = i + 1;
        if next - bit == bit {
            square *= square;
            bit = next;
        }
    }
}
