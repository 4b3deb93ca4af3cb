// The numbers drawn, one after the other, and whether one is below a limit.
ghost use Rattle.std.specs.Prelude.{◌≡◌, ◌%◌, ltb};
ghost use Rattle.definition.specs.Trials as definition;
ghost use Rattle.definition.specs.Trials.{next_number};
ghost use Rattle.draws.specs.Model.{drawn_of};

// Whether a draw succeeded, and the number that it took.
#[derive(Clone, Copy)]
pub(crate) struct Drawn {
    pub success: bool,
    pub state: u32,
}

// Marsaglia's xorshift; what is shifted out on the left is lost.
fn next_number(x: u32) -> u32
    ensures { result ≡ next_number x }
{
    let a = x ^ (x << 13);
    let b = a ^ (a >> 17);
    b ^ (b << 5)
}

fn is_below(number: u32, limit: u32) -> bool
    ensures { result ≡ ltb (number % 1024) limit }
{
    number % 1024 < limit
}

// One draw against a limit.
pub(crate) fn draw(limit: u32, state: u32) -> Drawn
    ensures { drawn_of result ≡ definition.draw limit state }
{
    let number = next_number(state);
    Drawn {
        success: is_below(number, limit),
        state: number,
    }
}
