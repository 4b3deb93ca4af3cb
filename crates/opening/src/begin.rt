// Where the loop begins: the key of a direction that waits.
ghost use Rattle.std.specs.Prelude.{◌≡◌, ◌<◌, length};
ghost use Rattle.opening.specs.Begin.{initial_key};

use array_utils::LogTable;
use messages::residual;

// A direction waits with the residual of its message in force against the log, if that exceeds the tolerance. 0 is the key of one that does not.
pub fn initial_key(table: &LogTable, message: &[f32], log: &[f32], tolerance: f32) -> u32
    requires in_bounds { (1 < length message.now) × (length message.now ≡ length log.now) }
    ensures { result ≡ initial_key tolerance message.now log.now }
{
    let amount = residual(table, message, log);
    if tolerance < amount {
        return priorities::key_of(amount);
    }
    0
}
