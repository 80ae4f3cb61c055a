// What the rack's console, written in C, calls: thin above the proved core.
#![tactic(auto)]

ghost use Rattle.std.specs.Prelude.{◌+◌, ◌*◌, ◌≤◌, [], ◌∷◌, ◌≡◌, length, get_or, eqb};
ghost use Rattle.std.proofs.Math.Option.{none, some};
ghost use Rattle.reader.specs.First.{any};
ghost use Rattle.reader.specs.Entries.{nodes as nodes_of, no_node};
ghost use Rattle.reader.specs.Limits.{max_nodes, max_tasks};
ghost use Rattle.reader.specs.Refusals.{resulted, answered, result_number};
ghost use Rattle.reader.specs.JobFile.{job_at};
ghost use Rattle.writer.specs.Puts.{Rows};
ghost use Rattle.replay.specs.TimesFile.{list_of};
ghost use Rattle.rules.specs.declared.Loss.TheVariants.{NoLoss, Lost};
ghost use Rattle.seqopchi.specs.Files.{plan_in, files_fault, judge_files, plan_file, loss_fault, replay_files, sets_files};

use copies::table::Copies;
use judge::judge_plan;
use judge::sets::plan_sets;
use planner::plan_job;
use reader::job::{Job, Node};
use reader::job_file::fill_job;
use reader::plan_file::read_plan;
use reader::refusal::{Refusal, result_number};
use replay::replay_into;
use replay::times_file::read_list;
use rules::Loss;
use writer::{put_number, put_plan, room};

// Each call reads both files by two lines: handed back as one value they would be copied at each `?`.
fn judge_files(job: &[u8], plan: &[u8]) -> Result<(), Refusal>
    ensures { result ≡ answered (judge_files job.now plan.now) }
{
    let mut value = Job::empty();
    fill_job(job, &mut value)?;
    let places = read_plan(plan, &value)?;
    judge_plan(&value, &places)
}

fn plan_file(job: &[u8], out: &mut [u8]) -> Result<(), Refusal>
    ensures { plan_file job.now out.old ≡ record { answer = result; buffer = out.new } }
{
    let mut value = Job::empty();
    fill_job(job, &mut value)?;
    let need = 8 + 16 * (value.task_count as usize);
    room(out, need)?;
    let plan = plan_job(value)?;
    put_plan(out, &plan);
    Ok(())
}

// Whether one of these nodes is in group q.
fn has_node(nodes: &[Node], q: u32) -> bool
    ensures { result ≡ any (length nodes.now) (λ i. eqb (get_or nodes.now i no_node).group q) }
{
    nodes.iter().any(|node| node.group == q)
}

// Whether the lost group, if any, has a node of the job.
fn lost_group(loss: Loss, job: &Job) -> Result<(), Refusal>
    requires { nodes_of job.now ≤ max_nodes }
    ensures { result ≡ answered (loss_fault job.now loss) }
{
    let Loss::Lost(q, _) = loss else {
        return Ok(());
    };
    if has_node(&job.nodes[..job.node_count as usize], q) {
        return Ok(());
    }
    Err(Refusal::NoSuchNode(q))
}

// With the times of the list, where one is given; where none is, copies take the listed times.
fn replay_files(
    job: &[u8],
    plan: &[u8],
    loss: Loss,
    list: Option<&[u8]>,
    out: &mut [u8],
) -> Result<(), Refusal>
    ensures { replay_files job.now plan.now loss (list_of list.entry) out.old
        ≡ record { answer = result; buffer = out.new } }
{
    let mut value = Job::empty();
    fill_job(job, &mut value)?;
    let places = read_plan(plan, &value)?;
    lost_group(loss, &value)?;
    let times = read_list(&value, &places, list)?;
    room(out, 12 * (value.task_count as usize))?;
    replay_into(&value, &places, times.as_ref(), loss, out);
    Ok(())
}

// Puts the fault sets of the first n tasks, every second entry of the table of copies, from the buffer's front: rows put one by one, not side by side.
fn put_sets(out: &mut [u8], sets: &[u32; Copies::COUNT], n: usize)
    requires { (n ≤ max_tasks) × (4 * n ≤ length out.old) }
    ensures { Rows (λ j. get_or sets.now (2 * j + 1) 0 ∷ []) 4 out.old 0 n out.new (4 * n) }
{
    for j in 0..n {
        put_number(out, 4 * j, sets[2 * j + 1]);
    }
}

fn sets_files(job: &[u8], plan: &[u8], out: &mut [u8]) -> Result<(), Refusal>
    ensures { sets_files job.now plan.now out.old ≡ record { answer = result; buffer = out.new } }
{
    let mut value = Job::empty();
    fill_job(job, &mut value)?;
    let places = read_plan(plan, &value)?;
    let n = value.task_count as usize;
    room(out, 4 * n)?;
    put_sets(out, &plan_sets(&value, &places), n);
    Ok(())
}

// Judges a job file and a plan file.
pub fn seqopchi_judge(job: &[u8], plan: &[u8]) -> u64
    ensures { result ≡ result_number (answered (judge_files job.now plan.now)) }
{
    result_number(judge_files(job, plan))
}

// Plans a job file into a buffer, as a plan file.
pub fn seqopchi_plan(job: &[u8], out: &mut [u8]) -> u64
    ensures { (result ≡ result_number (plan_file job.now out.old).answer)
        × (out.new ≡ (plan_file job.now out.old).buffer) }
{
    result_number(plan_file(job, out))
}

// Replays two files with no loss: three numbers for each task. C has a function for each of the four.
pub fn seqopchi_replay(job: &[u8], plan: &[u8], out: &mut [u8]) -> u64
    ensures { (result ≡ result_number (replay_files job.now plan.now NoLoss none out.old).answer)
        × (out.new ≡ (replay_files job.now plan.now NoLoss none out.old).buffer) }
{
    result_number(replay_files(job, plan, Loss::NoLoss, None, out))
}

// The same, with a group lost at a moment: every node of it.
pub fn seqopchi_replay_loss(job: &[u8], plan: &[u8], group: u32, moment: u32, out: &mut [u8]) -> u64
    ensures { (result ≡ result_number (replay_files job.now plan.now (Lost group moment) none out.old).answer)
        × (out.new ≡ (replay_files job.now plan.now (Lost group moment) none out.old).buffer) }
{
    result_number(replay_files(job, plan, Loss::Lost(group, moment), None, out))
}

// Replays two files with no loss, each copy taking the ticks that a list says.
pub fn seqopchi_replay_times(job: &[u8], plan: &[u8], times: &[u8], out: &mut [u8]) -> u64
    ensures { (result ≡ result_number (replay_files job.now plan.now NoLoss (some times.now) out.old).answer)
        × (out.new ≡ (replay_files job.now plan.now NoLoss (some times.now) out.old).buffer) }
{
    result_number(replay_files(job, plan, Loss::NoLoss, Some(times), out))
}

// The same, with a group lost at a moment.
pub fn seqopchi_replay_times_loss(
    job: &[u8],
    plan: &[u8],
    group: u32,
    moment: u32,
    times: &[u8],
    out: &mut [u8],
) -> u64
    ensures { (result ≡ result_number (replay_files job.now plan.now (Lost group moment) (some times.now)
        out.old).answer)
        × (out.new ≡ (replay_files job.now plan.now (Lost group moment) (some times.now)
        out.old).buffer) }
{
    result_number(replay_files(job, plan, Loss::Lost(group, moment), Some(times), out))
}

// The fault sets of two files, passed or not: a number for each task, bit q for group q.
pub fn seqopchi_fault_sets(job: &[u8], plan: &[u8], out: &mut [u8]) -> u64
    ensures { (result ≡ result_number (sets_files job.now plan.now out.old).answer)
        × (out.new ≡ (sets_files job.now plan.now out.old).buffer) }
{
    result_number(sets_files(job, plan, out))
}
