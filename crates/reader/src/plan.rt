// A plan: for each task where its primary and its backup run, and from when.
ghost use Rattle.std.specs.Prelude.{◌≡◌};
ghost use Rattle.reader.specs.Entries.{empty_plan};

use crate::job::Job;

#[derive(Clone, Copy)]
pub struct Place {
    pub primary_node: u32,
    pub primary_start: u32,
    pub backup_node: u32,
    pub backup_start: u32,
}

impl Place {
    // All 0.
    pub const BLANK: Place = Place {
        primary_node: 0,
        primary_start: 0,
        backup_node: 0,
        backup_start: 0,
    };
}

// A count and an array, as a job has them.
#[derive(Clone, Copy)]
pub struct Plan {
    pub version: u32,
    pub task_count: u32,
    pub places: [Place; Job::MAX_TASKS],
}

impl Plan {
    pub const VERSION: usize = 1;

    pub const MAX_START: usize = 1_000_000;

    // Bytes of the longest file.
    pub const MAX_LENGTH: usize = 1_032;

    pub fn empty() -> Plan
        ensures { result ≡ empty_plan }
    {
        Plan {
            version: 1,
            task_count: 0,
            places: [Place::BLANK; Job::MAX_TASKS],
        }
    }
}
