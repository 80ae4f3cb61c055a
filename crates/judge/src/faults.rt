// Fault sets, task by task in the order of the receiving task, and rule F.
ghost use Rattle.std.specs.Prelude.{◌≡◌, ◌≤◌, length};
ghost use Rattle.reader.specs.Entries.{tasks};
ghost use Rattle.reader.specs.Limits.{max_tasks};
ghost use Rattle.reader.specs.Refusals.{answered};
ghost use Rattle.judge.specs.Faults.{Low, Grouped, GathersAll, loss_breach};

use copies::gather::gather_task;
use copies::sets::holds;
use copies::table::Copies;
use reader::job::Job;
use reader::refusal::Refusal;

// The fault sets of all tasks, from the state in which each is its own primary's group: `into` has for each task those from which weak links
// arrive at it. Once a task is gathered its set stays.
pub fn fault_sets(into: &[u64], sets: &mut [u32; Copies::COUNT])
    requires { length into.now ≤ max_tasks }
    ensures { GathersAll into.now (length into.now) sets.old sets.new }
{
    for (j, weak) in into.iter().enumerate() {
        let k = 2 * j + 1;
        sets[k] = gather_task(sets, sets[k], *weak);
    }
}

// F. The group of the backup's node is not in the fault set.
pub fn common_loss(job: &Job, copies: &Copies) -> Result<(), Refusal>
    requires { Low copies.now.node (tasks job.now) × Grouped job.now.nodes copies.now.node (tasks job.now) }
    ensures { result ≡ answered (loss_breach job.now.nodes copies.now.node copies.now.set (tasks job.now)) }
{
    for j in 0..job.task_count as usize {
        let k = 2 * j + 1;
        let own = &job.nodes[copies.node[k] as usize];
        if holds(copies.set[k], own.group) {
            return Err(Refusal::CommonLoss(j));
        }
    }
    Ok(())
}
