// Where a new task would go beside a plan.
ghost use Rattle.std.specs.Prelude.{◌≡◌, ◌<◌, get_or};
ghost use Rattle.reader.specs.Limits.{max_tasks};
ghost use Rattle.reader.specs.Entries.{task, group};
ghost use Rattle.planner.specs.Tasks.{attempted};
ghost use Rattle.asking.specs.Calls.{Asking};
ghost use Rattle.asking.specs.Beside.{Takeable, Taken, place_new};

use crate::longer::merged_links;
use judge::tasks::copy_of;
use planner::board::{Board, Pair};
use planner::faults::by_group;
use planner::senders::{Incoming, Senders};
use planner::task::Want;
use reader::job::Job;
use reader::plan::{Place, Plan};
use reader::refusal::Refusal;
use rules::Description;

// Both copies of task j of a job at their place, with its fault set, beside what is booked.
fn pair_at(links: &Incoming, board: &Board, job: &Job, j: usize, place: Place) -> Pair
    requires { (j < max_tasks) × Takeable links.now board.now (get_or links.now.last j 0) (task job.now j) place
        (group job.now place.primary_node) }
    ensures { Taken links.now board.now (get_or links.now.last j 0) (task job.now j) place
        (group job.now place.primary_node) result }
{
    let task = job.tasks[j];
    let q = place.primary_node as usize;
    let r = place.backup_node as usize;
    let p = copy_of(place.primary_node, place.primary_start, task.run[q]);
    let b = copy_of(place.backup_node, place.backup_start, task.run[r]);
    let inputs = Senders {
        links,
        board,
        left: links.last[j] as usize,
    };
    let set = inputs.fault_set(p, job.nodes[q].group);
    Pair {
        primary: p,
        backup: b,
        set,
    }
}

// The planner's own step for a new task beside the plan, with its primary anywhere. Of the longer job it makes the links alone.
pub fn place_new(job: &Job, plan: &Plan, d: &Description) -> Result<Pair, Refusal>
    requires { Asking job.now plan.now d.now }
    ensures { attempted result ≡ place_new job.now plan.now d.now }
{
    let old = job.link_count as usize;
    let new = d.link_count as usize;
    let merged = merged_links(&job.links, old, &d.links, new);
    let links = Incoming::by_receiver(&merged, old + new);
    let mut board = Board::empty();
    let n = job.task_count as usize;
    for j in 0..n {
        let pair = pair_at(&links, &board, job, j, plan.places[j]);
        board.book(&job.nodes, j, pair);
    }
    let count = job.node_count as usize;
    let peers = by_group(&job.nodes, count);
    let w = Want::of(n, d.task, job.nodes, count, links.last[n] as usize);
    board.place_task(&links, &peers, w)
}
