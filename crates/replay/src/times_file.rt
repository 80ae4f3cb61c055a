// Reading a list of actual times after its job and plan.
ghost use Rattle.std.specs.Prelude.{◌≤◌, ◌<◌, ◌≡◌, option_copied};
ghost use Rattle.reader.specs.Limits.{max_nodes, max_tasks};
ghost use Rattle.reader.specs.Entries.{tasks};
ghost use Rattle.reader.specs.Refusals.{resulted};
ghost use Rattle.reader.specs.Sound.{Sound, PlanSound};
ghost use Rattle.rules.specs.Times.{listed_at};
ghost use Rattle.replay.specs.TimesFile.{took_fault, took_at, times_fault, times_at, list_of, list_fault, times_in, took_by};

use reader::job::{Job, Task};
use reader::number::field;
use reader::plan::{Place, Plan};
use reader::refusal::Refusal;
use rules::{Times, Took};

// The listed run times of a task's copies at its place.
#[tactic(auto, unfolding(rules::specs::Times::listed_at))]
fn listed(t: Task, x: Place) -> Took
    requires { (x.primary_node < max_nodes) × (x.backup_node < max_nodes) }
    ensures { result ≡ listed_at t x }
{
    let p = x.primary_node as usize;
    let b = x.backup_node as usize;
    Took {
        primary: t.run[p],
        backup: t.run[b],
    }
}

// What the copies of task j take: what is given, or else what is listed.
#[tactic(auto, unfolding(crate::specs::TimesFile::took_by))]
pub fn took_by(times: Option<&Times>, j: usize, t: Task, x: Place) -> Took
    requires { (j < max_tasks) × (x.primary_node < max_nodes) × (x.backup_node < max_nodes) }
    ensures { result ≡ took_by (option_copied times.entry) j (listed_at t x) }
{
    match times {
        Some(given) => given.of[j],
        None => listed(t, x),
    }
}

// One task's two numbers at an offset, each from 1 to the most that its copy takes.
fn read_took(file: &[u8], at: usize, most: Took) -> Result<Took, Refusal>
    requires { at ≤ 8192 }
    ensures { result ≡ resulted (took_fault file.now at most) (took_at file.now at) }
{
    let primary = field(file, at, 1, most.primary as usize, Refusal::Value(at))?;
    let backup = field(
        file,
        at + 4,
        1,
        most.backup as usize,
        Refusal::Value(at + 4),
    )?;
    Ok(Took { primary, backup })
}

// A whole list, after its job and plan.
fn read_times(file: &[u8], job: &Job, plan: &Plan) -> Result<Times, Refusal>
    requires { Sound job.now × PlanSound job.now plan.now }
    ensures { result ≡ resulted (times_fault file.now job.now plan.now) (times_at file.now (tasks job.now)) }
{
    let none = Took {
        primary: 0,
        backup: 0,
    };
    let mut of = [none; Job::MAX_TASKS];
    let n = job.task_count as usize;
    for j in 0..n {
        of[j] = read_took(file, 8 * j, listed(job.tasks[j], plan.places[j]))?;
    }
    let end = 8 * n;
    if end < file.len() {
        return Err(Refusal::Tail(end));
    }
    Ok(Times { of })
}

// The list, where one is given. Where none is, there is nothing to refuse.
#[tactic(auto, unfolding(crate::specs::TimesFile::list_fault, crate::specs::TimesFile::times_in))]
pub fn read_list(job: &Job, plan: &Plan, list: Option<&[u8]>) -> Result<Option<Times>, Refusal>
    requires { Sound job.now × PlanSound job.now plan.now }
    ensures { result
        ≡ resulted (list_fault (list_of list.entry) job.now plan.now) (times_in (list_of list.entry) job.now) }
{
    match list {
        Some(file) => Ok(Some(read_times(file, job, plan)?)),
        None => Ok(None),
    }
}
