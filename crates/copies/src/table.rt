// The flat table of copies: entries 2j and 2j + 1 are task j's primary and backup.
ghost use Rattle.std.specs.Prelude.{◌≡◌, ◌<◌};
ghost use Rattle.copies.specs.Table.{copy_count, entry, empty_copies, Whole, Stored};

use reader::job::Job;
use rules::Copy;

// A backup's set is its task's fault set, a primary's is every group, so that one clash test serves both. Four arrays, of which a loop reads those that
// it needs; when results leave is an array beside them, which half of what is lent the table has no use for.
#[derive(Clone, Copy)]
pub struct Copies {
    pub node: [u32; Copies::COUNT],
    pub start: [u32; Copies::COUNT],
    pub finish: [u32; Copies::COUNT],
    pub set: [u32; Copies::COUNT],
}

impl Copies {
    // Two for each task.
    pub const COUNT: usize = 2 * Job::MAX_TASKS;

    // Of the layout: room for all of them on each node.
    pub const SPOTS: usize = Job::MAX_NODES * Copies::COUNT;

    pub fn empty() -> Copies
        ensures { result ≡ empty_copies }
    {
        Copies {
            node: [0; Copies::COUNT],
            start: [0; Copies::COUNT],
            finish: [0; Copies::COUNT],
            set: [0; Copies::COUNT],
        }
    }

    // Stores entry k.
    pub fn put(&mut self, k: usize, copy: Copy, set: u32)
        requires { Whole self.old × (k < copy_count) }
        ensures { Whole self.new × Stored self.old k copy set self.new }
    {
        self.node[k] = copy.node;
        self.start[k] = copy.start;
        self.finish[k] = copy.finish;
        self.set[k] = set;
    }

    // Entry k.
    pub fn at(&self, k: usize) -> Copy
        requires { k < copy_count }
        ensures { result ≡ entry self.now k }
    {
        Copy {
            node: self.node[k],
            start: self.start[k],
            finish: self.finish[k],
        }
    }
}
