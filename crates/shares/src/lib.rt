// A bale's grams by grade, added to the totals.
#![tactic(auto)]

ghost use Rattle.std.specs.Prelude.{◌≡◌, ◌≤◌};
ghost use Rattle.float_laws.specs.Interval.{In};
ghost use Rattle.definition.specs.Floats.{zeroᶠ, oneᶠ};
ghost use Rattle.definition.specs.Tonnage.{share};
ghost use Rattle.shares.specs.Adding.{Addable, Added};

// 2^-21: the heaviest bale, of 2,000,000 grams, has no whole gram of less.
const LEAST: f32 = 0.000000476837158203125;

const MANTISSA_BITS: u32 = 23;

const MANTISSA_STEPS: u32 = 8388608;

// A float with this exponent is its own digits.
const WHOLE_EXPONENT: u32 = 150;

// The whole part of grams times a belief, by a shift of the exact product of grams and the belief's digits.
fn whole_part(grams: u64, present: f32) -> u64
    requires { (grams ≤ 2000000) × In zeroᶠ oneᶠ present }
    ensures { result ≡ share grams present }
{
    if present < LEAST {
        return 0;
    }
    let bits = f32::to_bits(present);
    let digits = MANTISSA_STEPS + bits % MANTISSA_STEPS;
    let exponent = bits >> MANTISSA_BITS;
    grams * (digits as u64) >> (WHOLE_EXPONENT - exponent)
}

// To each grade's total its share of the grams: the grades in `numbers`, two floats for each, of which the second is its present belief.
pub fn add_bale(sums: &mut [u64], grams: u64, numbers: &[u32], floats: &[f32])
    requires { Addable sums.old grams numbers.now floats.now }
    ensures { Added sums.old grams numbers.now floats.now sums.new }
{
    for (i, &number) in numbers.iter().enumerate() {
        let grade = number as usize;
        sums[grade] += whole_part(grams, floats[2 * i + 1]);
    }
}
