// When and from where a task's result goes out.
ghost use Rattle.std.specs.Prelude.{◌≡◌};
ghost use Rattle.replay.specs.Inputs.{sent_at, sent_from};

use crate::states::{Outcome, State};
use reader::plan::Place;

// Later than any start: what no copy finished is never there. A number, since the turn of a link compares it as one.
pub const NEVER: u32 = 4_000_000;

#[tactic(auto, unfolding(crate::specs::Inputs::sent_at))]
pub fn sent_at(o: Outcome) -> u32
    ensures { result ≡ sent_at o }
{
    o.finish.unwrap_or(NEVER)
}

// The node of the finished copy.
#[tactic(auto, unfolding(crate::specs::Inputs::sent_from))]
pub fn sent_from(o: Outcome, x: Place) -> u32
    ensures { result ≡ sent_from o x }
{
    match o.primary {
        State::Finished => x.primary_node,
        State::NotStarted | State::Cut => x.backup_node,
    }
}
