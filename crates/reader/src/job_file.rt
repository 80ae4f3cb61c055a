// Reading a job file, section by section.
ghost use Rattle.std.specs.Prelude.{◌≡◌, List, ℕ, ◌+◌, ◌*◌, ◌≤◌, ◌<◌, drop, replicate, IfOk, OnOk};
ghost use Rattle.reader.specs.Limits.{newest_version, max_nodes, min_tasks, max_tasks, max_links};
ghost use Rattle.reader.specs.Entries.{no_node, no_link, blank_task, empty_job};
ghost use Rattle.reader.specs.Number.{number_at, version_fault, value_fault};
ghost use Rattle.reader.specs.Fields.{node_fields, width_if, fault_if, value_if, fields_fault};
ghost use Rattle.reader.specs.Refusals.{resulted, answered};
ghost use Rattle.reader.specs.Reads.{Reads};
ghost use Rattle.reader.specs.Sound.{below as below_of};
ghost use Rattle.reader.specs.JobFile.{node_width, task_width, node_section, task_section, node_at, nodes_fault, nodes_at, run_fault, run_at};
ghost use Rattle.reader.specs.JobFile.{task_fault, task_at, tasks_fault, tasks_at, link_fault, link_at, links_fault, links_at, job_fault, job_at, read_job};

use crate::job::{Job, Link, Node, Task};
use crate::number::{field, field_of_part};
use crate::refusal::Refusal;

// A field from 0 to `high`, at offset `at` where the version has it; where it lacks it, what it counts as.
fn field_if(
    part: &[u8],
    base: usize,
    at: usize,
    has: bool,
    high: usize,
    lacking: u32,
) -> Result<u32, Refusal>
    requires { (base ≤ at) × (at ≤ 65536) }
    ensures { (file : List ℕ) → drop base file ≡ part.now
        → result ≡ resulted (fault_if has (value_fault file at 0 high)) (value_if has (number_at file at) lacking) }
{
    if has {
        return field_of_part(part, base, at, 0, high, Refusal::Value(at));
    }
    Ok(lacking)
}

// The bytes of such a field.
fn width_if(has: bool) -> usize
    ensures { (result ≡ width_if has) × (result ≤ 4) }
{
    if has { 4 } else { 0 }
}

// Node `number` at an offset, and the offset behind it: its detect time, in every version, and its send time and group where the version has
// them. It is its own group where it lacks one.
fn read_node(file: &[u8], version: usize, number: u32, at: usize) -> Result<(Node, usize), Refusal>
    requires { at ≤ 16384 }
    ensures end_bound { IfOk result (λ read. read.1 ≤ at + 32) }
    ensures reads { Reads (fields_fault version file.now at (node_fields number)) result
        (λ read. (read.0 ≡ node_at version file.now number at) × (read.1 ≡ at + node_width version)) }
{
    let detect = field(file, at, 0, Job::MAX_DETECT, Refusal::Value(at))?;
    let has_send = Job::SEND_SINCE <= version;
    let send = field_if(file, 0, at + 4, has_send, Job::MAX_SEND, 0)?;
    let then = at + 4 + width_if(has_send);
    let has_group = Job::GROUP_SINCE <= version;
    let group = field_if(file, 0, then, has_group, Job::MAX_GROUP, number)?;
    let node = Node {
        detect,
        send,
        group,
    };
    Ok((node, then + width_if(has_group)))
}

// The node section, into a list without nodes; gives how many there are, and the offset behind them. A list is filled where it lies: as a part of a
// Result it is copied at each `?`, and reading the longest job took 1.4 times as long.
fn read_nodes(
    file: &[u8],
    version: usize,
    list: &mut [Node; Job::MAX_NODES],
) -> Result<(usize, usize), Refusal>
    requires { list.old ≡ replicate max_nodes no_node }
    ensures count_le_max_nodes { IfOk result (λ read. (read.0 ≤ max_nodes) × (read.1 ≤ 1024)) }
    ensures reads { Reads (nodes_fault version file.now) result (λ read. (read.0 ≡ number_at file.now node_section)
        × (list.new ≡ nodes_at version file.now read.0) × (read.1 ≡ task_section version read.0)) }
{
    let count = field(file, 4, Job::MIN_NODES, Job::MAX_NODES, Refusal::Count(4))? as usize;
    let mut end: usize = 8;
    for i in 0..count {
        let (node, behind) = read_node(file, version, i as u32, end)?;
        list[i] = node;
        end = behind;
    }
    Ok((count, end))
}

// A run time for each node, from offset `at`; the part begins at offset `base` of the file.
#[inline(always)]
fn read_run(
    part: &[u8],
    base: usize,
    at: usize,
    nodes: usize,
) -> Result<[u32; Job::MAX_NODES], Refusal>
    requires { (base ≤ at) × (at ≤ 16384) × (nodes ≤ max_nodes) }
    ensures { (file : List ℕ) → drop base file ≡ part.now
        → Reads (run_fault file at nodes) result (λ times. times ≡ run_at file at nodes) }
{
    let mut times = [0; Job::MAX_NODES];
    for i in 0..nodes {
        let place = at + 4 * i;
        times[i] = field_of_part(part, base, place, 0, Job::MAX_TIME, Refusal::Value(place))?;
    }
    Ok(times)
}

// One task at offset `at`, and the offset behind it: its ready time where the version has it, its deadline, then its run times.
#[inline(always)]
pub fn read_task(
    part: &[u8],
    base: usize,
    version: usize,
    at: usize,
    nodes: usize,
) -> Result<(Task, usize), Refusal>
    requires { (base ≤ at) × (at ≤ 8192) × (nodes ≤ max_nodes) }
    ensures end_bound { IfOk result (λ read. read.1 ≤ at + 96) }
    ensures by_index { (file : List ℕ) → drop base file ≡ part.now → Reads (task_fault version file at nodes) result
        (λ read. (read.0 ≡ task_at version file at nodes) × (read.1 ≡ at + task_width version nodes)) }
{
    let has = Job::READY_SINCE <= version;
    let ready = field_if(part, base, at, has, Job::MAX_TIME, 0)?;
    let then = at + width_if(has);
    let deadline = field_of_part(
        part,
        base,
        then,
        Job::MIN_DEADLINE,
        Job::MAX_TIME,
        Refusal::Value(then),
    )?;
    let run = read_run(part, base, then + 4, nodes)?;
    let task = Task {
        ready,
        deadline,
        run,
    };
    Ok((task, then + 4 + 4 * nodes))
}

// The task section, with which the part begins, into a list without tasks; gives how many there are, and the offset behind them. A loop beside that of the
// nodes: what both share is four lines, and each clause names its own definition.
fn read_tasks(
    part: &[u8],
    base: usize,
    version: usize,
    nodes: usize,
    list: &mut [Task; Job::MAX_TASKS],
) -> Result<(usize, usize), Refusal>
    requires { (base ≤ 1024) × (nodes ≤ max_nodes) × (list.old ≡ replicate max_tasks blank_task) }
    ensures count_le_max_tasks { IfOk result (λ read. (read.0 ≤ max_tasks) × (read.1 ≤ 8192)) }
    ensures by_index { (file : List ℕ) → drop base file ≡ part.now → Reads (tasks_fault version file base nodes) result
        (λ read. (read.0 ≡ number_at file base) × (list.new ≡ tasks_at version file base nodes read.0)
        × (read.1 ≡ base + 4 + read.0 * task_width version nodes)) }
{
    let count = field_of_part(
        part,
        base,
        base,
        Job::MIN_TASKS,
        Job::MAX_TASKS,
        Refusal::Count(base),
    )? as usize;
    let mut end = base + 4;
    for i in 0..count {
        let (task, behind) = read_task(part, base, version, end, nodes)?;
        list[i] = task;
        end = behind;
    }
    Ok((count, end))
}

// Whether link l stands below link m: by from, then to.
pub fn below(l: Link, m: Link) -> bool
    ensures { result ≡ below_of l m }
{
    (l.from, l.to) < (m.from, m.to)
}

// One link at an offset, between tasks below `tasks`, behind the link `before`.
#[inline(always)]
fn read_link(file: &[u8], at: usize, tasks: usize, before: Link) -> Result<Link, Refusal>
    requires { (at ≤ 16384) × (min_tasks ≤ tasks) × (tasks ≤ max_tasks) }
    ensures { Reads (link_fault file.now at tasks before) result (λ link. link ≡ link_at file.now at) }
{
    let from = field(file, at, 0, tasks - 1, Refusal::Value(at))?;
    let least = (from as usize) + 1;
    let to = field(file, at + 4, least, tasks - 1, Refusal::Value(at + 4))?;
    let delay = field(file, at + 8, 0, Job::MAX_TIME, Refusal::Value(at + 8))?;
    let link = Link { from, to, delay };
    if below(before, link) {
        return Ok(link);
    }
    Err(Refusal::LinkOrder(at))
}

// The link section at an offset, into a list without links; gives how many there are, and the offset behind them.
fn read_links(
    file: &[u8],
    at: usize,
    tasks: usize,
    list: &mut [Link; Job::MAX_LINKS],
) -> Result<(usize, usize), Refusal>
    requires { (at ≤ 8192) × (min_tasks ≤ tasks) × (tasks ≤ max_tasks) × (list.old ≡ replicate max_links no_link) }
    ensures count_le_max_links { IfOk result (λ read. read.0 ≤ max_links) }
    ensures reads { Reads (links_fault file.now at tasks) result (λ read. (read.0 ≡ number_at file.now at)
        × (list.new ≡ links_at file.now at read.0) × (read.1 ≡ at + 4 + 12 * read.0)) }
{
    let count = field(file, at, 0, Job::MAX_LINKS, Refusal::Count(at))? as usize;
    let mut before = Link::BLANK;
    for k in 0..count {
        before = read_link(file, at + 4 + 12 * k, tasks, before)?;
        list[k] = before;
    }
    Ok((count, at + 4 + 12 * count))
}

// The version, up to the newest that this reader knows.
fn read_version(file: &[u8]) -> Result<u32, Refusal>
    ensures { result ≡ resulted (version_fault newest_version file.now) (number_at file.now 0) }
{
    field(
        file,
        0,
        Job::FIRST_VERSION,
        Job::NEWEST_VERSION,
        Refusal::Version(0),
    )
}

// A whole job file, into an empty job. It is filled where it lies: a job that is part of a Result is cleared and copied at each `?`.
pub fn fill_job(file: &[u8], job: &mut Job) -> Result<(), Refusal>
    requires { job.old ≡ empty_job }
    ensures answer { result ≡ answered (job_fault file.now) }
    ensures job { OnOk result (job.new ≡ job_at file.now) }
{
    let version = read_version(file)?;
    let (nodes, start) = read_nodes(file, version as usize, &mut job.nodes)?;
    let (tasks, behind) = read_tasks(
        &file[start..],
        start,
        version as usize,
        nodes,
        &mut job.tasks,
    )?;
    let (links, end) = read_links(file, behind, tasks, &mut job.links)?;
    if end < file.len() {
        return Err(Refusal::Tail(end));
    }
    job.version = version;
    job.node_count = nodes as u32;
    job.task_count = tasks as u32;
    job.link_count = links as u32;
    Ok(())
}

// The same, as a value.
pub fn read_job(file: &[u8]) -> Result<Job, Refusal>
    ensures { result ≡ read_job file.now }
{
    let mut job = Job::empty();
    fill_job(file, &mut job)?;
    Ok(job)
}
