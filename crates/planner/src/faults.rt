// The fault set of a task, and the nodes of each group.
ghost use Rattle.std.specs.Prelude.{◌≤◌};
ghost use Rattle.reader.specs.Limits.{max_group};
ghost use Rattle.planner.specs.Senders.{Sending};
ghost use Rattle.planner.specs.Faults.{Faulted, Groups, Peers};

use crate::senders::Senders;
use copies::arrival::in_time;
use copies::gather::gather_task;
use copies::sets::{bit_of, late_bit};
use copies::table::Copies;
use reader::job::{Job, Node};
use rules::Copy;

impl<'a> Senders<'a> {
    // Of the task that they send to, with this primary, on a node of this group: once it has one its set is that group, and the links are gathered.
    pub fn fault_set(self, primary: Copy, group: u32) -> u32
        requires { Sending self.links.now self.board.now self.left × (group ≤ max_group) }
        ensures { Faulted self.entry.links.now self.entry.board.now self.entry.left primary group result }
    {
        let mut weak: u64 = 0;
        for x in self {
            weak |= late_bit(in_time(x.backup, primary), x.task);
        }
        gather_task(&self.board.copies.set, bit_of(group), weak)
    }
}

// The nodes of each group, of the first n: a table as that of fault sets, so that `gather_task` joins those of a set of groups.
pub fn by_group(nodes: &[Node; Job::MAX_NODES], n: usize) -> [u32; Copies::COUNT]
    requires { Groups nodes.now n }
    ensures { Peers nodes.now n result }
{
    let mut peers = [0u32; Copies::COUNT];
    for i in 0..n {
        let k = 2 * (nodes[i].group as usize) + 1;
        peers[k] |= bit_of(i as u32);
    }
    peers
}
