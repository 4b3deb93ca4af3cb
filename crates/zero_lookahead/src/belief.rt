// What a variable believes before any message.
ghost use Rattle.std.specs.Prelude.{◌≡◌, ℕ, ◌<◌, length};
ghost use Rattle.definition.specs.Settings as definition;
ghost use Rattle.definition.specs.Vectors.{binary};
ghost use Rattle.definition.specs.Directions.{MessageGraph, node_at};
ghost use Rattle.definition.specs.Messages.{initial_belief};
ghost use Rattle.sweeps.specs.SweepRows.{IsVariable};
ghost use Rattle.zero_lookahead.specs.Part.{PartWords};
ghost use Rattle.zero_lookahead.specs.Variable.{SomeVariable};

use array_utils::VariableMessage;
use factor_graph::kind::NodeKind;
use messages::directions::word;

// The belief that a grade or an input starts with (`get_initial_belief`).
pub(crate) fn initial_belief(
    words: &[u32],
    evidence: &[f32],
    prior: f32,
    n: usize,
) -> VariableMessage
    requires { SomeVariable words.now evidence.now n }
    ensures { (s : definition.Settings) (t : MessageGraph) (out : ℕ) → PartWords s t out evidence.now words.now → s.prior ≡ prior → n < length t.nodes → IsVariable (node_at t n).kind → binary result.absent result.present ≡ initial_belief s (node_at t n).kind }
{
    if word(words, 2 + n) == NodeKind::Input as usize {
        let nodes = word(words, 0);
        return VariableMessage::read(evidence, 2 * word(words, 2 + nodes + n));
    }
    VariableMessage::from_prior(prior)
}
