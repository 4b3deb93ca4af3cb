// The exponential of y ≤ 0: a series of seven terms and a power of a half.
ghost use Rattle.std.specs.Prelude.{◌≡◌, ◌^◌, ◌≤◌, T};
ghost use Rattle.std.specs.Float.Ieee.{le};
ghost use Rattle.definition.specs.Floats.{zeroᶠ, oneᶠ, ratio, exp_series, exp};

use crate::ln::{FloatBits, LN_2};

const LOG2_E: f32 = 1.4426950408889634;

// 1 + (r * h) / j for j = 7 down to 1, from h = 1.
fn exp_series(r: f32) -> f32
    ensures { result ≡ exp_series 7 r oneᶠ }
{
    let mut h: f32 = 1.0;
    for j in (1..8u32).rev() {
        h = 1.0 + (r * h) / (j as f32);
    }
    h
}

// 2^-n, by its pattern: the exponent's field alone is set.
fn power_of_half(n: u32) -> f32
    requires { n ≤ 126 }
    ensures { result ≡ ratio 1 (2 ^ n) }
{
    f32::from_bits(((FloatBits::EXPONENT_BIAS as u32) - n) << FloatBits::MANTISSA_BITS)
}

// Document 01 has it for y ≤ 0 alone: what is above 0, and NaN, has no count n of halvings.
pub fn exp(y: f32) -> f32
    requires { T (le y zeroᶠ) }
    ensures { result ≡ exp y }
{
    if y < -87.0 {
        return 0.0;
    }
    let n = FloatBits::whole_part(-y * LOG2_E);
    let r = y + (n as f32) * LN_2;
    exp_series(r) * power_of_half(n)
}
