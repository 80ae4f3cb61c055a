// Reading the description of an extra task, after its job.
ghost use Rattle.std.specs.Prelude.{◌≡◌, ◌+◌, ◌*◌, ◌≤◌, replicate, IfOk};
ghost use Rattle.reader.specs.declared.job.Job.{Job};
ghost use Rattle.reader.specs.Limits.{min_tasks, max_tasks, max_links};
ghost use Rattle.reader.specs.Number.{number_at};
ghost use Rattle.reader.specs.Entries.{no_link};
ghost use Rattle.reader.specs.Reads.{Reads};
ghost use Rattle.asking.specs.Sizes.{Sizes, shape_of, shaped};
ghost use Rattle.asking.specs.DescriptionFile.{new_link_fault, new_link_at, new_links_fault, new_links_at};
ghost use Rattle.asking.specs.DescriptionFile.{description_fault, description_at, description_length, question_fault, booking_fault, booked_place};

use reader::job::{Job, Link};
use reader::job_file::{below, read_task};
use reader::number::field;
use reader::plan::Place;
use reader::plan_file::read_place;
use reader::refusal::Refusal;
use rules::Description;

// What a description is read by: the version of its job, and how many nodes and tasks that has.
#[derive(Clone, Copy)]
pub struct Shape {
    pub version: usize,
    pub nodes: usize,
    pub tasks: usize,
}

impl Shape {
    pub fn of(job: &Job) -> Shape
        ensures { result ≡ shape_of job.now }
    {
        Shape {
            version: job.version as usize,
            nodes: job.node_count as usize,
            tasks: job.task_count as usize,
        }
    }
}

// One link to the new task at an offset, from a task below `tasks`, behind the link `before`.
fn read_new_link(file: &[u8], at: usize, tasks: usize, before: Link) -> Result<Link, Refusal>
    requires { (at ≤ 16384) × (min_tasks ≤ tasks) × (tasks ≤ max_tasks) }
    ensures { Reads (new_link_fault file.now at tasks before) result (λ link. link ≡ new_link_at file.now at tasks) }
{
    let from = field(file, at, 0, tasks - 1, Refusal::Value(at))?;
    let delay = field(file, at + 4, 0, Job::MAX_TIME, Refusal::Value(at + 4))?;
    let to = tasks as u32;
    let link = Link { from, to, delay };
    if below(before, link) {
        return Ok(link);
    }
    Err(Refusal::LinkOrder(at))
}

// The links to the new task, at an offset, into a list without links; gives how many there are, and the offset behind them. A loop of its own beside
// the reader's: shared by a closure it would have a contract longer than the loop.
fn read_new_links(
    file: &[u8],
    at: usize,
    tasks: usize,
    list: &mut [Link; Job::MAX_LINKS],
) -> Result<(usize, usize), Refusal>
    requires { (at ≤ 8192) × (min_tasks ≤ tasks) × (tasks ≤ max_tasks) × (list.old ≡ replicate max_links no_link) }
    ensures count_le_max_links { IfOk result (λ read. read.0 ≤ max_links) }
    ensures reads { Reads (new_links_fault file.now at tasks) result (λ read. (read.0 ≡ number_at file.now at)
        × (list.new ≡ new_links_at file.now at tasks read.0) × (read.1 ≡ at + 4 + 8 * read.0)) }
{
    let count = field(file, at, 0, Job::MAX_LINKS, Refusal::Count(at))? as usize;
    let mut before = Link::BLANK;
    for k in 0..count {
        before = read_new_link(file, at + 4 + 8 * k, tasks, before)?;
        list[k] = before;
    }
    Ok((count, at + 4 + 8 * count))
}

// The task's entry, then its links; and the offset behind them.
fn read_description(file: &[u8], shape: Shape) -> Result<(Description, usize), Refusal>
    requires { Sizes shape.nodes shape.tasks }
    ensures end_bound { IfOk result (λ read. read.1 ≤ 8192) }
    ensures reads { (job : Job) → Reads (description_fault file.now (shaped job shape)) result
        (λ read. (read.0 ≡ description_at file.now (shaped job shape))
        × (read.1 ≡ description_length file.now (shaped job shape))) }
{
    let (task, at) = read_task(file, 0, shape.version, 0, shape.nodes)?;
    let mut description = Description {
        task,
        link_count: 0,
        links: [Link::BLANK; Job::MAX_LINKS],
    };
    let (links, end) = read_new_links(file, at, shape.tasks, &mut description.links)?;
    description.link_count = links as u32;
    Ok((description, end))
}

// What is asked: a description, and nothing behind it.
pub fn read_question(file: &[u8], shape: Shape) -> Result<Description, Refusal>
    requires { Sizes shape.nodes shape.tasks }
    ensures { (job : Job) → Reads (question_fault file.now (shaped job shape)) result
        (λ description. description ≡ description_at file.now (shaped job shape)) }
{
    let (description, end) = read_description(file, shape)?;
    if end < file.len() {
        return Err(Refusal::Tail(end));
    }
    Ok(description)
}

// What is committed: a description, then the four numbers of its place.
pub fn read_booking(file: &[u8], shape: Shape) -> Result<(Description, Place), Refusal>
    requires { Sizes shape.nodes shape.tasks }
    ensures { (job : Job) → Reads (booking_fault file.now (shaped job shape)) result
        (λ booking. (booking.0 ≡ description_at file.now (shaped job shape))
        × (booking.1 ≡ booked_place file.now (shaped job shape))) }
{
    let (description, at) = read_description(file, shape)?;
    let place = read_place(file, at, shape.nodes, description.task.run)?;
    let end = at + 16;
    if end < file.len() {
        return Err(Refusal::Tail(end));
    }
    Ok((description, place))
}
