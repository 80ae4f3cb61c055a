// When the result of a copy is on each node.
ghost use Rattle.std.specs.Prelude.{cond, ◌≡◌, ◌<◌, get_or};
ghost use Rattle.copies.specs.Arrival.{arrival_of, comes, result_at, SumFits};
ghost use Rattle.copies.specs.Table.{copy_count};

use crate::table::Copies;
use rules::Copy;

// A copy's result as it goes out by a link: on the copy's own node from its finish on, on every other from `away` on.
#[derive(Clone, Copy)]
pub struct Outgoing {
    pub node: u32,
    pub here: u32,
    pub away: u32,
}

// One of two values: no jump, since tests of copies follow no pattern that a processor learns.
pub fn pick(test: bool, a: u32, b: u32) -> u32
    ensures { result ≡ cond test a b }
{
    if test { a } else { b }
}

// From when the result is on node `to`.
#[tactic(auto, unfolding(crate::specs::Arrival::arrival_of))]
pub fn arrival(res: Outgoing, to: u32) -> u32
    ensures { result ≡ arrival_of res to }
{
    if res.node == to { res.here } else { res.away }
}

// Whether it is there by the start of a copy.
pub fn in_time(res: Outgoing, copy: Copy) -> bool
    ensures { result ≡ comes res copy }
{
    arrival(res, copy.node) <= copy.start
}

impl Copies {
    // The result of entry k, by a link of this delay; `leave` has for each entry when its result has left its node.
    pub fn result_at(&self, leave: &[u32; Copies::COUNT], delay: u32, k: usize) -> Outgoing
        requires { (k < copy_count) × SumFits (get_or leave.now k 0) delay }
        ensures { result ≡ result_at self.now.node self.now.finish leave.now delay k }
    {
        Outgoing {
            node: self.node[k],
            here: self.finish[k],
            away: leave[k] + delay,
        }
    }
}
