// Vectors of floats, in place.
ghost use Rattle.std.specs.Prelude.{◌≡◌, map, Float};
ghost use Rattle.definition.specs.Floats.{◌⊘◌, maxᶠ, avoid_underflow};
ghost use Rattle.definition.specs.Vectors.{sum_of, normalize, avoid_underflow_all};

// The f32 nearest 10^-30.
const FLOOR: f32 = 1e-30;

fn sum(a: &[f32]) -> f32
    ensures { result ≡ sum_of a.now }
{
    let mut sum: f32 = 0.0;
    for x in a {
        sum += *x;
    }
    sum
}

// Each entry divided by one float: what `normalize` does with the sum, and a factor's table with its own.
pub fn divide(a: &mut [f32], by: f32)
    ensures { a.new ≡ map (λ (x : Float). x ⊘ by) a.old }
{
    for x in a.iter_mut() {
        *x /= by;
    }
}

pub fn normalize(a: &mut [f32])
    ensures { a.new ≡ normalize a.old }
{
    let by = sum(a);
    divide(a, by);
}

pub(crate) fn avoid_underflow_entry(x: f32) -> f32
    ensures { result ≡ avoid_underflow x }
{
    if x < FLOOR { FLOOR } else { x }
}

pub fn avoid_underflow(a: &mut [f32])
    ensures { a.new ≡ avoid_underflow_all a.old }
{
    for x in a.iter_mut() {
        *x = avoid_underflow_entry(*x);
    }
}

// f32::max of the Rust: of a number and NaN the number.
pub fn max(a: f32, b: f32) -> f32
    ensures { result ≡ maxᶠ a b }
{
    if a <= a { if a < b { b } else { a } } else { b }
}
