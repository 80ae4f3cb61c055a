// What is booked so far: each copy, when its result leaves its node, and the copies of each node in order of time.
ghost use Rattle.std.specs.Prelude.{◌≡◌, ◌+◌, ◌*◌, ◌<◌};
ghost use Rattle.copies.specs.Table.{copy_count, Whole};
ghost use Rattle.copies.specs.Layout.{Laid};
ghost use Rattle.planner.specs.Tasks.{Blank, LaidTo, Bookable, Booked, Departing, departed, Next};

use copies::layout::Layout;
use copies::sets::ALL;
use copies::table::Copies;
use reader::job::{Job, Node};
use rules::Copy;

#[derive(Clone, Copy)]
pub struct Board {
    pub copies: Copies,
    pub leave: [u32; Copies::COUNT],
    pub layout: Layout,
}

// Both copies of a task, and its fault set.
#[derive(Clone, Copy)]
pub struct Pair {
    pub primary: Copy,
    pub backup: Copy,
    pub set: u32,
}

impl Board {
    pub fn empty() -> Board
        ensures { Blank result }
    {
        Board {
            copies: Copies::empty(),
            leave: [0; Copies::COUNT],
            layout: Layout::empty(),
        }
    }

    // Both copies of task j, behind those booked: they are stored, with when their results leave, and stand in order of time.
    pub fn book(&mut self, nodes: &[Node; Job::MAX_NODES], j: usize, pair: Pair)
        requires { Bookable nodes.now j pair self.old }
        ensures booked { Booked j pair self.old.copies self.new.copies }
        ensures gone { self.new.leave ≡ departed nodes.now j pair self.old.leave }
        ensures laid { LaidTo (2 * (j + 1)) self.new }
    {
        book(&mut self.copies, j, pair);
        send_off(&mut self.leave, nodes, j, pair);
        lay_both(&mut self.layout, &self.copies, j);
    }
}

// Stores both copies of task j.
pub fn book(copies: &mut Copies, j: usize, pair: Pair)
    requires { Whole copies.old × (2 * j + 1 < copy_count) }
    ensures { Booked j pair copies.old copies.new }
{
    let k = 2 * j;
    copies.put(k, pair.primary, ALL);
    copies.put(k + 1, pair.backup, pair.set);
}

// When the results of both leave their nodes.
pub fn send_off(
    leave: &mut [u32; Copies::COUNT],
    nodes: &[Node; Job::MAX_NODES],
    j: usize,
    pair: Pair,
)
    requires { Departing nodes.now j pair }
    ensures { leave.new ≡ departed nodes.now j pair leave.old }
{
    let k = 2 * j;
    let p = pair.primary;
    let q = pair.backup;
    leave[k] = p.finish + nodes[p.node as usize].send;
    leave[k + 1] = q.finish + nodes[q.node as usize].send;
}

// Both copies of task j, which are stored, in order of time.
pub fn lay_both(layout: &mut Layout, copies: &Copies, j: usize)
    requires { Next copies.now.node copies.now.start j layout.old.order layout.old.count }
    ensures { Laid copies.now.node copies.now.start (2 * (j + 1)) layout.new.order layout.new.count }
{
    let k = 2 * j;
    layout.lay(copies, k);
    layout.lay(copies, k + 1);
}
