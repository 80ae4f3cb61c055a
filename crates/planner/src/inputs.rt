// When the inputs of a task are on each node.
ghost use Rattle.std.specs.Prelude.{◌≡◌};
ghost use Rattle.planner.specs.Senders.{Sending};
ghost use Rattle.planner.specs.Inputs.{ready_on, farther_of, Reached, Owned, Given};

use crate::senders::Senders;
use copies::arrival::{arrival, pick};

// The latest arrival, where it is not on the node that it leaves; and that node.
#[derive(Clone, Copy)]
pub struct Reach {
    pub at: u32,
    pub from: u32,
}

// From when all inputs are on a node: on the one that the latest leaves, and on each other.
#[derive(Clone, Copy)]
pub struct Ready {
    pub node: u32,
    pub own: u32,
    pub all: u32,
}

pub fn ready_on(ready: Ready, n: u32) -> u32
    ensures { result ≡ ready_on ready n }
{
    if n == ready.node {
        ready.own
    } else {
        ready.all
    }
}

pub fn farther(reach: Reach, from: u32, at: u32) -> Reach
    ensures { result ≡ farther_of reach from at }
{
    if reach.at < at {
        return Reach { at, from };
    }
    reach
}

impl<'a> Senders<'a> {
    // The latest arrival for a copy of this set. Each sender's primary counts, and its backup where the two sets meet.
    pub fn farthest(self, set: u32) -> Reach
        requires { Sending self.links.now self.board.now self.left }
        ensures { Reached self.entry.links.now self.entry.board.now self.entry.left set result }
    {
        let mut reach = Reach { at: 0, from: 0 };
        for x in self {
            let p = x.primary;
            let b = x.backup;
            let half = farther(reach, p.node, p.away);
            let late = pick(x.set & set != 0, b.away, 0);
            reach = farther(half, b.node, late);
        }
        reach
    }

    // From when the same inputs are on node `to`.
    pub fn own_time(self, set: u32, to: u32) -> u32
        requires { Sending self.links.now self.board.now self.left }
        ensures { Owned self.entry.links.now self.entry.board.now self.entry.left set to result }
    {
        let mut own: u32 = 0;
        for x in self {
            let half = own.max(arrival(x.primary, to));
            let late = arrival(x.backup, to);
            own = half.max(pick(x.set & set != 0, late, 0));
        }
        own
    }

    // For a copy of this set, from when its inputs are on each node.
    pub fn gather(self, set: u32) -> Ready
        requires { Sending self.links.now self.board.now self.left }
        ensures { Given self.entry.links.now self.entry.board.now self.entry.left set result }
    {
        let far = self.farthest(set);
        let own = self.own_time(set, far.from);
        Ready {
            node: far.from,
            own,
            all: far.at,
        }
    }
}
