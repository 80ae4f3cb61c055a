// A job: nodes, tasks and the links between them, with their limits.
ghost use Rattle.std.specs.Prelude.{◌≡◌};
ghost use Rattle.reader.specs.Entries.{empty_job};

// One loss takes every node of a group.
#[derive(Clone, Copy)]
pub struct Node {
    pub detect: u32,
    pub send: u32,
    pub group: u32,
}

impl Node {
    // All 0.
    pub const BLANK: Node = Node {
        detect: 0,
        send: 0,
        group: 0,
    };
}

// A run time of 0 says that the node cannot run the task, here as in the file: the array is the file's row.
#[derive(Clone, Copy)]
pub struct Task {
    pub ready: u32,
    pub deadline: u32,
    pub run: [u32; Job::MAX_NODES],
}

impl Task {
    // All 0.
    pub const BLANK: Task = Task {
        ready: 0,
        deadline: 0,
        run: [0; Job::MAX_NODES],
    };
}

#[derive(Clone, Copy)]
pub struct Link {
    pub from: u32,
    pub to: u32,
    pub delay: u32,
}

impl Link {
    // All 0.
    pub const BLANK: Link = Link {
        from: 0,
        to: 0,
        delay: 0,
    };
}

// What the arrays hold beyond their counts is no part of the job, and a field that its version lacks is none. Arrays and counts, since there is no
// heap; `Sound` is a clause and no invariant of the type, since writers take any job and the theorems of demand 2 and 3 name it.
#[derive(Clone, Copy)]
pub struct Job {
    pub version: u32,
    pub node_count: u32,
    pub nodes: [Node; Job::MAX_NODES],
    pub task_count: u32,
    pub tasks: [Task; Job::MAX_TASKS],
    pub link_count: u32,
    pub links: [Link; Job::MAX_LINKS],
}

impl Job {
    pub const FIRST_VERSION: usize = 1;

    pub const NEWEST_VERSION: usize = 4;

    // The versions with which fields came.
    pub const READY_SINCE: usize = 2;

    pub const SEND_SINCE: usize = 3;

    pub const GROUP_SINCE: usize = 4;

    pub const MIN_NODES: usize = 2;

    pub const MAX_NODES: usize = 16;

    pub const MAX_DETECT: usize = 1000;

    pub const MAX_SEND: usize = 1000;

    pub const MAX_GROUP: usize = 15;

    pub const MIN_TASKS: usize = 1;

    pub const MAX_TASKS: usize = 64;

    pub const MIN_DEADLINE: usize = 1;

    pub const MAX_LINKS: usize = 512;

    // Ready times, deadlines, run times and delays.
    pub const MAX_TIME: usize = 1_000_000;

    // Bytes of the longest file.
    pub const MAX_LENGTH: usize = 10_960;

    pub fn empty() -> Job
        ensures { result ≡ empty_job }
    {
        Job {
            version: 1,
            node_count: 0,
            nodes: [Node::BLANK; Job::MAX_NODES],
            task_count: 0,
            tasks: [Task::BLANK; Job::MAX_TASKS],
            link_count: 0,
            links: [Link::BLANK; Job::MAX_LINKS],
        }
    }
}
