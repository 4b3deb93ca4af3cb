// A sweep (`compute_update` of the Rust).
ghost use Rattle.std.specs.Prelude.{◌≡◌, ◌+◌, ◌≤◌, length};
ghost use Rattle.sweeps.specs.SweepRotate.{rotated};

// The rows change places: the new messages are in force, those that were in force are the log, and the old log is what is written over next.
pub fn rotate(w: &mut [f32], l: usize)
    requires { l + l + l ≤ length w.old }
    ensures { w.new ≡ rotated l w.old }
{
    let (in_force, behind) = w.split_at_mut(l);
    let (new, log) = behind.split_at_mut(l);
    // `rotate_left` takes longer: it sets a room of 4 KiB to zero at each call.
    in_force.swap_with_slice(new);
    new.swap_with_slice(&mut log[..l]);
}
