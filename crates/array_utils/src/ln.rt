// A float by the fields of its pattern, and its logarithm from the table.
ghost use Rattle.std.specs.Prelude.{◌≡◌, ◌/◌, ◌%◌, ◌^◌, ◌<◌, false, pos};
ghost use Rattle.std.specs.Float.{fin};
ghost use Rattle.std.specs.Float.Ieee.{to_unsigned};
ghost use Rattle.float_laws.specs.Interval.{In};
ghost use Rattle.definition.specs.Floats.{zeroᶠ};
ghost use Rattle.message_bounds.specs.Ln.{normal, ln_parts};
ghost use Rattle.array_utils.specs.LnLaws.{bits_of};

use crate::table::LogTable;

pub(crate) const LN_2: f32 = 0.6931471805599453;

// The exponent, the upper digits of the mantissa, which index the table, and the lower ones.
#[derive(Clone, Copy)]
pub(crate) struct FloatBits {
    pub exponent: u32,
    pub index: u32,
    pub fraction: u32,
}

impl FloatBits {
    pub const EXPONENT_BIAS: i32 = 127;

    pub const MANTISSA_BITS: u32 = 23;

    pub const LOG_TABLE_BITS: u32 = 10;

    pub const FRACTION_BITS: u32 = Self::MANTISSA_BITS - Self::LOG_TABLE_BITS;

    pub const MANTISSA_STEPS: u32 = 1 << Self::MANTISSA_BITS;

    pub const FRACTION_STEPS: u32 = 1 << Self::FRACTION_BITS;

    // A float with this exponent is its own digits.
    pub const WHOLE_EXPONENT: u32 = (Self::EXPONENT_BIAS as u32) + Self::MANTISSA_BITS;

    pub const LEAST: f32 = 1.17549435e-38;

    // What is below the least normal float, and NaN, counts as that float.
    fn clamp_to_normal(x: f32) -> f32
        ensures { result ≡ normal x }
    {
        if Self::LEAST <= x { x } else { Self::LEAST }
    }

    pub fn new(x: f32) -> FloatBits
        ensures { (result.exponent ≡ bits_of x / 2 ^ 23) × (result.index ≡ bits_of x % 2 ^ 23 / 2 ^ 13) × (result.fraction ≡ bits_of x % 2 ^ 13) × (bits_of x < 2 ^ 31) }
    {
        let bits = f32::to_bits(FloatBits::clamp_to_normal(x));
        let mantissa = bits % Self::MANTISSA_STEPS;
        FloatBits {
            exponent: bits >> Self::MANTISSA_BITS,
            index: mantissa >> Self::FRACTION_BITS,
            fraction: mantissa % Self::FRACTION_STEPS,
        }
    }

    // The whole part of t, by a shift of its digits: those of the mantissa after a leading one.
    pub fn whole_part(t: f32) -> u32
        requires { In zeroᶠ (fin false 126 (pos 0)) t }
        ensures { result ≡ to_unsigned 32 t }
    {
        if t < 1.0 {
            return 0;
        }
        let bits = f32::to_bits(t);
        let digits = Self::MANTISSA_STEPS + bits % Self::MANTISSA_STEPS;
        let exponent = bits >> Self::MANTISSA_BITS;
        digits >> (Self::WHOLE_EXPONENT - exponent)
    }

    pub fn ln_from_table(self, table: &LogTable) -> f32
        requires exponent_bound { (self.exponent < 256) × (self.index < 1024) × (self.fraction < 8192) }
        ensures { result ≡ ln_parts self.exponent self.index self.fraction }
    {
        let exponent = (self.exponent as i32) - Self::EXPONENT_BIAS;
        let index = self.index as usize;
        let low = table.entries[index];
        let high = table.entries[index + 1];
        let fraction = (self.fraction as f32) / (Self::FRACTION_STEPS as f32);
        (exponent as f32) * LN_2 + low + fraction * (high - low)
    }
}
