// The newest records of a log, and the largest ticks among them for each task and node.
//
// The window is a ring: each record takes the slot of the one that leaves, which came so many records before it as the window holds. The largest ticks
// are worked out in one pass over the slots when the table is asked for. So a log is read at the speed of its numbers, and where the largest leaves
// nothing is left of it.
ghost use Rattle.std.specs.Prelude.{◌≡◌, ◌<◌};
ghost use Rattle.reader.specs.Limits.{max_nodes, max_tasks};
ghost use Rattle.history.specs.Window.{cell_count, cell_of, empty_window, Seen};
ghost use Rattle.history.specs.Ring.{Formed, Takes};

use reader::job::Job;

// One record of a log: a task ran on a node for so many ticks.
#[derive(Clone, Copy)]
pub struct Timing {
    pub task: u32,
    pub node: u32,
    pub ticks: u32,
}

impl Timing {
    // Bytes in a log.
    pub const LENGTH: usize = 12;

    pub const MIN_TICKS: usize = 1;
}

// A cell is a task and a node: of each slot its record's cell and ticks, and the slot of the next record.
// Two lists and not one of pairs: the definitions of the window's law are of two (`Formed`, `InSlot`).
#[derive(Clone, Copy)]
pub struct Window {
    pub cell: [u32; Window::SIZE],
    pub ticks: [u32; Window::SIZE],
    pub at: usize,
}

impl Window {
    pub const SIZE: usize = 256;

    pub const CELLS: usize = Job::MAX_TASKS * Job::MAX_NODES;

    // Before the first record.
    pub fn empty() -> Window
        ensures { result ≡ empty_window }
    {
        Window {
            cell: [0; Window::SIZE],
            ticks: [0; Window::SIZE],
            at: 0,
        }
    }

    // A record comes in at slot `at`, and the one that stood there leaves.
    pub fn take(&mut self, x: Timing)
        requires { Formed self.old × (x.task < max_tasks) × (x.node < max_nodes) }
        ensures { Takes self.old x self.new }
    {
        self.cell[self.at] = cell_of(x.task, x.node);
        self.ticks[self.at] = x.ticks;
        self.at = (self.at + 1) % Window::SIZE;
    }
}

pub fn cell_of(task: u32, node: u32) -> u32
    requires { (task < max_tasks) × (node < max_nodes) }
    ensures { (result ≡ cell_of task node) × (result < cell_count) }
{
    (Job::MAX_NODES as u32) * task + node
}

// The largest ticks of each cell, 0 where there is no record.
pub fn largest(w: &Window) -> [u32; Window::CELLS]
    requires { Formed w.now }
    ensures { Seen w.now result }
{
    let mut seen = [0u32; Window::CELLS];
    for i in 0..Window::SIZE {
        let q = w.cell[i] as usize;
        seen[q] = seen[q].max(w.ticks[i]);
    }
    seen
}
