// The job with other run times: those of the newest records of a log.
ghost use Rattle.std.specs.Prelude.{◌≡◌, ◌≤◌, ◌<◌, length, replicate};
ghost use Rattle.reader.specs.First.{fill};
ghost use Rattle.reader.specs.Limits.{max_nodes, max_tasks};
ghost use Rattle.reader.specs.Entries.{nodes, tasks, run, blank_task};
ghost use Rattle.reader.specs.Reads.{Reads};
ghost use Rattle.reader.specs.Sound.{Sound};
ghost use Rattle.writer.specs.Puts.{Puts};
ghost use Rattle.history.specs.Log.{log_fault};
ghost use Rattle.history.specs.Times.{or_else_run, log_time, renewed_task, renewed, table_numbers, table_length};
ghost use Rattle.history.specs.Promise.{row_time, table_time, new_task};

use crate::log::read_log;
use crate::times::RunTimes;
use crate::window::{Window, largest};
use reader::job::{Job, Task};
use reader::refusal::Refusal;
use writer::put_run;

// A time seen, or the job's where there is none: 0 is no time, and an Option for each cell is no plainer.
fn time_of(seen: u32, run: u32) -> u32
    ensures { result ≡ or_else_run seen run }
{
    if seen == 0 { run } else { seen }
}

// Task j with the times seen; field by field, of which a wrong program of the gate loses one.
fn new_task(task: &Task, j: usize, nodes: usize, seen: &[u32; Window::CELLS]) -> Task
    requires { (j < max_tasks) × (nodes ≤ max_nodes) }
    ensures { result ≡ renewed_task nodes (row_time seen.now task.now.run j) task.now }
{
    let mut run = [0u32; Job::MAX_NODES];
    for n in 0..nodes {
        run[n] = time_of(seen[Job::MAX_NODES * j + n], task.run[n]);
    }
    Task {
        ready: task.ready,
        deadline: task.deadline,
        run,
    }
}

fn new_tasks(
    tasks: &[Task; Job::MAX_TASKS],
    count: usize,
    nodes: usize,
    seen: &[u32; Window::CELLS],
) -> [Task; Job::MAX_TASKS]
    requires { (count ≤ max_tasks) × (nodes ≤ max_nodes) }
    ensures { result ≡ fill count (new_task seen.now nodes tasks.now) (replicate max_tasks blank_task) }
{
    let mut list = [Task::BLANK; Job::MAX_TASKS];
    for j in 0..count {
        list[j] = new_task(&tasks[j], j, nodes, seen);
    }
    list
}

fn with_times(job: &Job, seen: &[u32; Window::CELLS]) -> Job
    requires { Sound job.now }
    ensures { result ≡ renewed job.now (table_time seen.now job.now) }
{
    let tasks = new_tasks(
        &job.tasks,
        job.task_count as usize,
        job.node_count as usize,
        seen,
    );
    Job { tasks, ..*job }
}

// The job with the run times of the log's newest records.
pub fn renew(job: &Job, log: &[u8]) -> Result<Job, Refusal>
    requires { Sound job.now }
    ensures { Reads (log_fault log.now job.now) result (λ new. new ≡ renewed job.now (log_time job.now log.now)) }
{
    let window = read_log(log, &RunTimes::of(job))?;
    let seen = largest(&window);
    Ok(with_times(job, &seen))
}

// The run times of a job, task by task, in each by node.
pub fn put_table(out: &mut [u8], job: &Job)
    requires { (tasks job.now ≤ max_tasks) × (nodes job.now ≤ max_nodes) × (table_length job.now ≤ length out.old) }
    ensures { Puts out.old 0 (table_numbers job.now (run job.now)) out.new (table_length job.now) }
{
    let nodes = job.node_count as usize;
    let mut at: usize = 0;
    for task in &job.tasks[..job.task_count as usize] {
        at = put_run(out, at, nodes, &task.run);
    }
}
