// The residuals that are pending and the queue of what waits, after a step along one direction: `compute_total_residuals`, `compute_priority`.
ghost use Rattle.std.specs.Prelude.{◌≡◌, ◌<◌, T, length, get_or, set};
ghost use Rattle.std.proofs.Math.Option.{none, some};
ghost use Rattle.definition.specs.Floats.{◌⊕◌, zeroᶠ};
ghost use Rattle.float_laws.specs.Rounded.{clear};
ghost use Rattle.steps.specs.StepPending.{Waiting, OneKept};

// Nothing is pending for direction d any more, and it waits no more.
pub fn clear_pending(pending: &mut [f32], words: &mut [u32], leaves: usize, d: usize)
    requires waiting { Waiting leaves pending.old words.old }
    requires d_in_bounds { d < length pending.old }
    ensures waiting_2 { Waiting leaves pending.new words.new }
    ensures pending_after { pending.new ≡ set pending.old d zeroᶠ }
    ensures one_kept { OneKept leaves (length pending.old) d none words.old words.new }
{
    pending[d] = 0.0;
    priorities::set(words, leaves, d, 0);
}

// The residual is pending for direction d too, and it waits with all that is pending for it.
pub fn add_to_pending(pending: &mut [f32], words: &mut [u32], leaves: usize, d: usize, r: f32)
    requires waiting { Waiting leaves pending.old words.old }
    requires d_in_bounds { (d < length pending.old) × T (clear r) }
    ensures waiting_2 { Waiting leaves pending.new words.new }
    ensures pending_after { pending.new ≡ set pending.old d (get_or pending.old d zeroᶠ ⊕ r) }
    ensures one_kept { OneKept leaves (length pending.old) d (some (get_or pending.old d zeroᶠ ⊕ r)) words.old words.new }
{
    let sum = pending[d] + r;
    pending[d] = sum;
    priorities::set(words, leaves, d, priorities::key_of(sum));
}

// Where direction d ends: where the one back starts.
pub(crate) fn end_of(starts: &[u32], outs: &[u32], d: usize) -> usize
    requires { (d < length outs.now) × (get_or outs.now d 0 < length starts.now) }
    ensures { result ≡ get_or starts.now (get_or outs.now d 0) 0 }
{
    starts[outs[d] as usize] as usize
}
