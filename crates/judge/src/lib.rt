// The judge: the rules of a plan, A to G in turn, the ready time after A.
#![tactic(auto)]

pub mod backups;
pub mod faults;
pub mod links;
pub mod note;
pub mod overlaps;
pub mod sets;
pub mod tasks;

ghost use Rattle.std.specs.Prelude.{◌≡◌};
ghost use Rattle.reader.specs.Entries.{tasks};
ghost use Rattle.reader.specs.Refusals.{answered};
ghost use Rattle.reader.specs.Sound.{Sound, PlanSound};
ghost use Rattle.rules.specs.Judge.{judge};
ghost use Rattle.judge.specs.Overlaps.{fault_breach};
ghost use Rattle.judge.specs.Faults.{Low, Grouped};

use crate::backups::backups_fed;
use crate::faults::{common_loss, fault_sets};
use crate::links::walk_links;
use crate::overlaps::overlapping;
use crate::tasks::place_copies;
use copies::table::Copies;
use reader::job::Job;
use reader::plan::Plan;
use reader::refusal::Refusal;

// F and G, over the table.
fn judge_faults(job: &Job, copies: &Copies) -> Result<(), Refusal>
    requires { Low copies.now.node (tasks job.now) × Grouped job.now.nodes copies.now.node (tasks job.now) }
    ensures { result ≡ answered (fault_breach copies.now job.now.nodes (tasks job.now)) }
{
    common_loss(job, copies)?;
    overlapping(copies, job.task_count as usize)
}

// Tasks, links, then what fault sets decide, E where the links leave it open: each part needs the one before it.
pub fn judge_plan(job: &Job, plan: &Plan) -> Result<(), Refusal>
    requires { Sound job.now × PlanSound job.now plan.now }
    ensures { result ≡ judge job.now plan.now }
{
    let mut copies = Copies::empty();
    let mut leave = [0; Copies::COUNT];
    place_copies(job, plan, &mut copies, &mut leave)?;
    let mut into = [0; Job::MAX_TASKS];
    let (unsure, by_links) = walk_links(job, &copies, &leave, &mut into);
    by_links?;
    fault_sets(&into[..job.task_count as usize], &mut copies.set);
    if unsure != 0 {
        backups_fed(job, unsure, &copies, &leave)?;
    }
    judge_faults(job, &copies)
}
