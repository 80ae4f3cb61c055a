// The fault sets of a plan, whatever the rules say of it.
ghost use Rattle.std.specs.Prelude.{◌≡◌, ℕ, ◌+◌, ◌*◌, ◌<◌, get_or};
ghost use Rattle.reader.specs.Entries.{tasks as tasks_of};
ghost use Rattle.reader.specs.Sound.{Sound, PlanSound};
ghost use Rattle.rules.specs.Gathering.{fault_number};

use crate::faults::fault_sets;
use crate::links::walk_links;
use crate::tasks::place_copies;
use copies::table::Copies;
use reader::job::Job;
use reader::plan::Plan;

// As entries of the table: the judge's own passes, with their answers put aside.
pub fn plan_sets(job: &Job, plan: &Plan) -> [u32; Copies::COUNT]
    requires { Sound job.now × PlanSound job.now plan.now }
    ensures { (j : ℕ) → j < tasks_of job.now → get_or result (2 * j + 1) 0 ≡ fault_number job.now plan.now j }
{
    let mut copies = Copies::empty();
    let mut leave = [0; Copies::COUNT];
    let _ = place_copies(job, plan, &mut copies, &mut leave);
    let mut into = [0; Job::MAX_TASKS];
    let _ = walk_links(job, &copies, &leave, &mut into);
    fault_sets(&into[..job.task_count as usize], &mut copies.set);
    copies.set
}
