// A message of two floats within a row of floats: read and written.
ghost use Rattle.std.specs.Prelude.{◌≡◌, ◌+◌, ◌<◌, length, get_or};
ghost use Rattle.std.specs.Float.{nan};
ghost use Rattle.definition.specs.Floats.{◌⊖◌, oneᶠ};
ghost use Rattle.definition.specs.Vectors.{binary};
ghost use Rattle.list_laws.specs.Part.{region};
ghost use Rattle.list_laws.specs.Put.{put};

use crate::message::VariableMessage;

impl VariableMessage {
    // What a grade believes before any message.
    pub fn from_prior(prior: f32) -> VariableMessage
        ensures absent { result.absent ≡ oneᶠ ⊖ prior }
        ensures present { result.present ≡ prior }
    {
        VariableMessage {
            absent: 1.0 - prior,
            present: prior,
        }
    }

    pub fn read(row: &[f32], at: usize) -> VariableMessage
        requires { at + 1 < length row.now }
        ensures entries { (result.absent ≡ get_or row.now at nan) × (result.present ≡ get_or row.now (at + 1) nan) }
        ensures two { binary result.absent result.present ≡ region row.now at 2 }
    {
        VariableMessage {
            absent: row[at],
            present: row[at + 1],
        }
    }

    pub fn write(self, row: &mut [f32], at: usize)
        requires { at + 1 < length row.old }
        ensures { row.new ≡ put row.old at (binary self.absent self.present) }
    {
        row[at] = self.absent;
        row[at + 1] = self.present;
    }
}
