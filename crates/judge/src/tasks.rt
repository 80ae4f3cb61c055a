// One pass over the tasks: the table of copies, and the first task that breaks A, the ready time, B or C.
ghost use Rattle.std.specs.Prelude.{◌≡◌, ◌+◌, ◌≤◌, replicate};
ghost use Rattle.reader.specs.declared.refusal.Refusal.TheVariants.{SameNode, TooSoon, Early, Late};
ghost use Rattle.reader.specs.First.{◌or_else◌};
ghost use Rattle.reader.specs.Limits.{max_start, max_time};
ghost use Rattle.reader.specs.Refusals.{answered};
ghost use Rattle.copies.specs.Table.{copy_count, Whole};
ghost use Rattle.judge.specs.Notes.{seen};
ghost use Rattle.judge.specs.Tasks.{Placeable, TasksJudged};

use crate::note::noted;
use copies::sets::{ALL, bit_of};
use copies::table::Copies;
use reader::job::Job;
use reader::plan::Plan;
use reader::refusal::Refusal;
use rules::Copy;

// The copy of a task that takes so long. Of the task no more than that is handed on: its run times would be copied.
pub fn copy_of(node: u32, start: u32, run: u32) -> Copy
    requires { start + run ≤ max_start + max_time }
    ensures { result ≡ record { node = node; start = start; finish = start + run } }
{
    Copy {
        node,
        start,
        finish: start + run,
    }
}

// The first refusal, where the first tasks that break A, the ready time, B and C are noted.
fn task_answer(
    same: Option<usize>,
    soon: Option<usize>,
    early: Option<usize>,
    late: Option<usize>,
) -> Result<(), Refusal>
    ensures { result ≡ answered (seen SameNode same or_else seen TooSoon soon or_else seen Early early or_else seen Late late) }
{
    if let Some(j) = same {
        return Err(Refusal::SameNode(j));
    }
    if let Some(j) = soon {
        return Err(Refusal::TooSoon(j));
    }
    if let Some(j) = early {
        return Err(Refusal::Early(j));
    }
    if let Some(j) = late {
        return Err(Refusal::Late(j));
    }
    Ok(())
}

// The caller's table is filled where it lies, refused or not: as a result it would be copied. A fault set is its own primary's group before its task is
// gathered. `leave` has when the result of each copy leaves.
pub fn place_copies(
    job: &Job,
    plan: &Plan,
    copies: &mut Copies,
    leave: &mut [u32; Copies::COUNT],
) -> Result<(), Refusal>
    requires { Placeable job.now plan.now × Whole copies.old × (leave.old ≡ replicate copy_count 0) }
    ensures { TasksJudged job.now plan.now copies.new leave.new result }
{
    let mut same = None;
    let mut soon = None;
    let mut early = None;
    let mut late = None;
    for j in 0..job.task_count as usize {
        let x = &plan.places[j];
        let task = &job.tasks[j];
        let p = copy_of(
            x.primary_node,
            x.primary_start,
            task.run[x.primary_node as usize],
        );
        let b = copy_of(
            x.backup_node,
            x.backup_start,
            task.run[x.backup_node as usize],
        );
        let own = &job.nodes[p.node as usize];
        let other = &job.nodes[b.node as usize];
        same = noted(same, j, own.group != other.group);
        soon = noted(soon, j, task.ready <= p.start);
        early = noted(early, j, p.finish + own.detect <= b.start);
        late = noted(late, j, b.finish <= task.deadline);
        let k = 2 * j;
        leave[k] = p.finish + own.send;
        leave[k + 1] = b.finish + other.send;
        copies.put(k, p, ALL);
        copies.put(k + 1, b, bit_of(own.group));
    }
    task_answer(same, soon, early, late)
}
