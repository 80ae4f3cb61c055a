// The planner: for each task by number, the earliest finish for its primary and then for its backup.
#![tactic(auto)]

ghost use Rattle.std.specs.Prelude.{◌≡◌};
ghost use Rattle.reader.specs.Sound.{Sound};
ghost use Rattle.rules.specs.Planner.{planner};
ghost use Rattle.planner.specs.Tasks.{planned};

use crate::board::Board;
use crate::faults::by_group;
use crate::places::plan_of;
use crate::senders::Incoming;
use crate::task::Want;
use reader::job::Job;
use reader::plan::Plan;
use reader::refusal::Refusal;

pub mod board;
pub mod faults;
pub mod inputs;
pub mod places;
pub mod search;
pub mod senders;
pub mod slot;
pub mod task;

// The whole plan: tasks go by number.
pub fn plan_job(job: Job) -> Result<Plan, Refusal>
    requires { Sound job }
    ensures { result ≡ planned (planner job) }
{
    let n = job.task_count as usize;
    let count = job.node_count as usize;
    let links = Incoming::by_receiver(&job.links, job.link_count as usize);
    let peers = by_group(&job.nodes, count);
    let mut board = Board::empty();
    for j in 0..n {
        let w = Want::of(j, job.tasks[j], job.nodes, count, links.last[j] as usize);
        let pair = board.place_task(&links, &peers, w)?;
        board.book(&job.nodes, j, pair);
    }
    Ok(plan_of(&board.copies, n))
}
