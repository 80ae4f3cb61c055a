// Writing a job file, and a plan file after its job.
#![tactic(auto)]

ghost use Rattle.std.specs.Prelude.{◌≡◌, ℕ, List, [], ◌∷◌, ◌+◌, ◌*◌, ◌≤◌, min, length, get_or, OnOk};
ghost use Rattle.reader.specs.Limits.{max_nodes, max_tasks, max_job_length, max_plan_length};
ghost use Rattle.reader.specs.Fields.{width_if, held_if};
ghost use Rattle.reader.specs.JobFile.{node_width, task_width};
ghost use Rattle.reader.specs.PlanFile.{plan_length};
ghost use Rattle.writer.specs.Write.{splice, node_numbers, task_numbers, link_numbers, place_numbers, job_numbers, plan_numbers};
ghost use Rattle.writer.specs.Write.{room_fault, writes, write_job, write_plan};
ghost use Rattle.reader.specs.Number.{bytes};
ghost use Rattle.reader.specs.Refusals.{answered};
ghost use Rattle.writer.specs.Puts.{Puts, Rows};

use reader::job::{Job, Link, Node, Task};
use reader::job_file::fill_job;
use reader::plan::{Place, Plan};
use reader::plan_file::read_plan;
use reader::refusal::Refusal;

// Puts a number at an offset; the library's bytes and copy under the clause that all files rest on.
pub fn put_number(d: &mut [u8], at: usize, v: u32)
    requires { at + 4 ≤ length d.old }
    ensures { d.new ≡ splice d.old at (bytes v) }
{
    d[at..at + 4].copy_from_slice(&v.to_le_bytes());
}

// The same; gives the offset behind, as all functions that put do.
// Buffer and offset in one struct would be no plainer: each contract would say too that the struct lends the same buffer still.
pub fn put(d: &mut [u8], at: usize, v: u32) -> usize
    requires { at + 4 ≤ length d.old }
    ensures { Puts d.old at (v ∷ []) d.new result }
{
    put_number(d, at, v);
    at + 4
}

// A field that the version has; nothing where it lacks it.
fn put_if(d: &mut [u8], at: usize, has: bool, v: u32) -> usize
    requires { at + width_if has ≤ length d.old }
    ensures { Puts d.old at (held_if has v []) d.new result }
{
    if has { put(d, at, v) } else { at }
}

// What a file has rows of: the numbers of a row, in at most so many bytes, by a form that all rows of one file share.
pub trait Entry {
    type Form: Copy;

    ghost numbers: { Self.Form → Self → List ℕ };

    ghost width: { Self.Form → ℕ };

    fn put(&self, d: &mut [u8], at: usize, form: Self::Form) -> usize
        requires { at + width form ≤ length d.old }
        ensures puts { Puts d.old at (numbers form self.now) d.new result }
        ensures most { result ≤ at + width form };
}

// The first rows of an array, one behind the other, from an offset.
// An array and a count and not `&[T]`: how long an array of a lent struct is, which the first rows rest on, is no fact where it is cut.
pub fn put_rows<T: Entry, const N: usize>(
    d: &mut [u8],
    from: usize,
    form: T::Form,
    count: usize,
    rows: &[T; N],
) -> usize
    requires { (count ≤ N) × (from + count * T.width form ≤ length d.old) }
    ensures rows { (none : _) → Rows (λ i. T.numbers form (get_or rows.now i none)) (T.width form) d.old from count d.new result }
    ensures most { result ≤ from + count * T.width form }
{
    let mut at = from;
    for x in &rows[..count] {
        at = x.put(d, at, form);
    }
    at
}

// A number alone.
impl Entry for u32 {
    type Form = ();

    ghost numbers = { λ _ v. v ∷ [] };

    ghost width = { λ _. 4 };

    fn put(&self, d: &mut [u8], at: usize, _form: ()) -> usize {
        put(d, at, *self)
    }
}

// A node: its detect time, in every version, and its send time and its group where the version has them.
impl Entry for Node {
    type Form = usize;

    ghost numbers = { node_numbers };

    ghost width = { node_width };

    fn put(&self, d: &mut [u8], at: usize, version: usize) -> usize {
        let then = put(d, at, self.detect);
        let last = put_if(d, then, Job::SEND_SINCE <= version, self.send);
        put_if(d, last, Job::GROUP_SINCE <= version, self.group)
    }
}

// What the tasks of a file share: its version, and how many nodes there are.
#[derive(Clone, Copy)]
pub struct TaskForm {
    version: usize,
    nodes: usize,
    ghost nodes_most: { nodes ≤ max_nodes },
}

// A task: its ready time where the version has it, its deadline, and its run time on each node.
impl Entry for Task {
    type Form = TaskForm;

    ghost numbers = { λ form task. task_numbers form.version form.nodes task };

    ghost width = { λ form. task_width form.version form.nodes };

    fn put(&self, d: &mut [u8], at: usize, form: TaskForm) -> usize {
        let then = put_if(d, at, Job::READY_SINCE <= form.version, self.ready);
        let behind = put(d, then, self.deadline);
        put_run(d, behind, form.nodes, &self.run)
    }
}

impl Entry for Link {
    type Form = ();

    ghost numbers = { λ _ link. link_numbers link };

    ghost width = { λ _. 12 };

    fn put(&self, d: &mut [u8], at: usize, _form: ()) -> usize {
        let to = put(d, at, self.from);
        let delay = put(d, to, self.to);
        put(d, delay, self.delay)
    }
}

impl Entry for Place {
    type Form = ();

    ghost numbers = { λ _ place. place_numbers place };

    ghost width = { λ _. 16 };

    fn put(&self, d: &mut [u8], at: usize, _form: ()) -> usize {
        let start = put(d, at, self.primary_node);
        let backup = put(d, start, self.primary_start);
        let last = put(d, backup, self.backup_node);
        put(d, last, self.backup_start)
    }
}

// The first run times of a task.
pub fn put_run(d: &mut [u8], from: usize, count: usize, run: &[u32; Job::MAX_NODES]) -> usize
    requires { (count ≤ max_nodes) × (from + 4 * count ≤ length d.old) }
    ensures { Rows (λ i. get_or run.now i 0 ∷ []) 4 d.old from count d.new result }
{
    put_rows(d, from, (), count, run)
}

// A count, or the length of the array that it counts; a name for the library's min after a cast, for three callers.
fn clip(count: u32, most: usize) -> usize
    ensures { result ≡ min count most }
{
    (count as usize).min(most)
}

// A job's numbers, from the buffer's front.
#[tactic(auto, using(crate::proofs::PutLaws::job_room))]
pub fn put_job(d: &mut [u8], job: &Job) -> usize
    requires { max_job_length ≤ length d.old }
    ensures { (result ≤ max_job_length) × Puts d.old 0 (job_numbers job.now) d.new result }
{
    let p = clip(job.node_count, Job::MAX_NODES);
    let n = clip(job.task_count, Job::MAX_TASKS);
    let m = clip(job.link_count, Job::MAX_LINKS);
    let version = job.version as usize;
    let form = TaskForm { version, nodes: p };
    let mut at = put(d, 0, job.version);
    at = put(d, at, job.node_count);
    at = put_rows(d, at, version, p, &job.nodes);
    at = put(d, at, job.task_count);
    at = put_rows(d, at, form, n, &job.tasks);
    at = put(d, at, job.link_count);
    put_rows(d, at, (), m, &job.links)
}

// A plan's numbers, from the buffer's front.
pub fn put_plan(d: &mut [u8], plan: &Plan) -> usize
    requires { plan_length (min plan.now.task_count max_tasks) ≤ length d.old }
    ensures { (result ≤ max_plan_length) × Puts d.old 0 (plan_numbers plan.now) d.new result }
{
    let n = clip(plan.task_count, Job::MAX_TASKS);
    let mut at = put(d, 0, plan.version);
    at = put(d, at, plan.task_count);
    put_rows(d, at, (), n, &plan.places)
}

// Room for so many bytes, or refused.
pub fn room(out: &[u8], n: usize) -> Result<(), Refusal>
    ensures answer { result ≡ answered (room_fault out.now n) }
    ensures fits { OnOk result (n ≤ length out.now) }
{
    if out.len() < n {
        return Err(Refusal::ShortBuffer(n));
    }
    Ok(())
}

// A writer's last step: refused for want of room, else the file stands at the buffer's front.
pub fn send(file: &[u8], out: &mut [u8]) -> Result<(), Refusal>
    ensures { writes (room_fault out.old (length file.now)) file.now out.old
        ≡ record { answer = result; buffer = out.new } }
{
    room(out, file.len())?;
    out[..file.len()].copy_from_slice(file);
    Ok(())
}

// Writes a job: refused as the reader would refuse its bytes, then for want of room.
pub fn write_job(job: &Job, out: &mut [u8]) -> Result<(), Refusal>
    ensures { write_job job.now out.old ≡ record { answer = result; buffer = out.new } }
{
    let mut scratch = [0u8; Job::MAX_LENGTH];
    let len = put_job(&mut scratch, job);
    let file = &scratch[..len];
    fill_job(file, &mut Job::empty())?;
    send(file, out)
}

// Writes a plan after its job: refused as the reader would refuse the job's bytes, then the plan's, then for want of room.
pub fn write_plan(job: &Job, plan: &Plan, out: &mut [u8]) -> Result<(), Refusal>
    ensures { write_plan job.now plan.now out.old ≡ record { answer = result; buffer = out.new } }
{
    let mut scratch = [0u8; Job::MAX_LENGTH];
    let len = put_job(&mut scratch, job);
    let mut back = Job::empty();
    fill_job(&scratch[..len], &mut back)?;
    let plan_len = put_plan(&mut scratch, plan);
    let file = &scratch[..plan_len];
    read_plan(file, &back)?;
    send(file, out)
}
