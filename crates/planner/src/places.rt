// The searches for a task's copies, and the plan of all.
ghost use Rattle.std.specs.Prelude.{◌≡◌, ◌≤◌};
ghost use Rattle.reader.specs.Limits.{max_tasks};
ghost use Rattle.planner.specs.Search.{primary_search, backup_search};
ghost use Rattle.planner.specs.Tasks.{listed, places_to, place_with};

use crate::inputs::Ready;
use crate::search::Search;
use copies::sets::ALL;
use copies::table::Copies;
use reader::job::Task;
use reader::plan::{Place, Plan};
use rules::Copy;

// A primary starts no sooner than its task's ready time.
pub fn primary_search(task: Task, nodes: usize, ready: Ready, least: u32, shut: u32) -> Search
    ensures { result ≡ primary_search task nodes ready least shut }
{
    Search {
        task,
        nodes,
        ready,
        least: least.max(task.ready),
        set: ALL,
        barred: shut,
    }
}

// A backup is on no node of a group in the fault set. Beside the other: one function of both would take all that either does.
pub fn backup_search(
    task: Task,
    nodes: usize,
    ready: Ready,
    least: u32,
    faults: u32,
    barred: u32,
) -> Search
    ensures { result ≡ backup_search task nodes ready least faults barred }
{
    Search {
        task,
        nodes,
        ready,
        least,
        set: faults,
        barred,
    }
}

// Where two copies are.
pub fn place_of(primary: Copy, backup: Copy) -> Place
    ensures { result ≡ place_with primary backup }
{
    Place {
        primary_node: primary.node,
        primary_start: primary.start,
        backup_node: backup.node,
        backup_start: backup.start,
    }
}

// The plan of the first n tasks, whose copies have these nodes and starts.
pub fn plan_of(copies: &Copies, n: usize) -> Plan
    requires { n ≤ max_tasks }
    ensures { result ≡ listed n (places_to copies.now.node copies.now.start n) }
{
    let mut plan = Plan::empty();
    for j in 0..n {
        let k = 2 * j;
        plan.places[j] = place_of(copies.at(k), copies.at(k + 1));
    }
    plan.task_count = n as u32;
    plan
}
