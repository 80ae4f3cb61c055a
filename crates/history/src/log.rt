// Reading a log: record by record into the window.
ghost use Rattle.std.specs.Prelude.{◌≡◌, ◌+◌, ◌^◌, ◌<◌, IfOk};
ghost use Rattle.reader.specs.declared.job.Job.{Job as JobOf};
ghost use Rattle.reader.specs.Limits.{max_nodes, max_tasks};
ghost use Rattle.reader.specs.Entries.{task as task_of};
ghost use Rattle.reader.specs.Number.{number_at};
ghost use Rattle.reader.specs.PlanFile.{node_fault};
ghost use Rattle.reader.specs.Sound.{Sound};
ghost use Rattle.reader.specs.Refusals.{resulted};
ghost use Rattle.history.specs.Promise.{TimesOf, OneRead, AllRead};

use crate::times::RunTimes;
use crate::window::{Timing, Window, cell_of};
use reader::job::Job;
use reader::number::field;
use reader::refusal::Refusal;

impl RunTimes {
    pub fn of(job: &Job) -> RunTimes
        requires { Sound job.now }
        ensures { TimesOf job.now result }
    {
        let mut runs = [0u32; Window::CELLS];
        for (j, task) in job.tasks.iter().enumerate() {
            let start = Job::MAX_NODES * j;
            runs[start..start + Job::MAX_NODES].copy_from_slice(&task.run);
        }
        RunTimes {
            tasks: job.task_count as usize,
            nodes: job.node_count as usize,
            runs,
        }
    }
}

// A node at an offset that can run the task: as a plan's, but of run times in one row, by the task's number.
#[inline(always)]
fn read_node(log: &[u8], at: usize, task: u32, times: &RunTimes) -> Result<u32, Refusal>
    requires { (at + 4 < 2 ^ 64) × (task < max_tasks) }
    ensures by_index { IfOk result (λ v. v < max_nodes) }
    ensures value { (job : JobOf) → TimesOf job times.now
        → result ≡ resulted (node_fault log.now at times.now.nodes (task_of job task).run) (number_at log.now at) }
{
    let node = field(log, at, 0, times.nodes - 1, Refusal::Value(at))?;
    let p = cell_of(task, node) as usize;
    if times.runs[p] == 0 {
        return Err(Refusal::Unable(at));
    }
    Ok(node)
}

// One record at an offset.
#[inline(always)]
fn read_timing(log: &[u8], at: usize, times: &RunTimes) -> Result<Timing, Refusal>
    requires { at + 12 < 2 ^ 64 }
    ensures within { IfOk result (λ x. (x.task < max_tasks) × (x.node < max_nodes)) }
    ensures one_read { OneRead log.now times.now at result }
{
    let task = field(log, at, 0, times.tasks - 1, Refusal::Value(at))?;
    let node = read_node(log, at + 4, task, times)?;
    let ticks = field(
        log,
        at + 8,
        Timing::MIN_TICKS,
        Job::MAX_TIME,
        Refusal::Value(at + 8),
    )?;
    Ok(Timing { task, node, ticks })
}

// The whole log, of any length: each record goes into the window as it is read. One that is cut short, behind the others, is refused by its reading.
// No for: by a record's number its offset is worked out anew, and a long log takes up to half as long again; the loop has whole records alone.
pub fn read_log(log: &[u8], times: &RunTimes) -> Result<Window, Refusal>
    ensures { AllRead log.now times.now result }
{
    let mut window = Window::empty();
    let mut at: usize = 0;
    while at + Timing::LENGTH <= log.len() {
        window.take(read_timing(log, at, times)?);
        at += Timing::LENGTH;
    }
    if at < log.len() {
        read_timing(log, at, times)?;
    }
    Ok(window)
}
