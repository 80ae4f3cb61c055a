// All runs of a plan at once: in which of them each copy ends, and in which it starts.
ghost use Rattle.std.specs.Prelude.{◌≡◌, ◌≤◌, ◌<◌};
ghost use Rattle.reader.specs.Entries.{tasks, links, link};
ghost use Rattle.trial.specs.Runs.{fed_of, fed_with, Sendable, Settleable, Settled, Placed, Told, Upto};

use crate::words::{Losses, either, without};
use copies::arrival::{Outgoing, in_time, pick};
use copies::sets::ALL;
use copies::table::Copies;
use reader::job::{Job, Link};
use rules::Copy;

// Of each copy the runs in which it ends, and those in which it starts: two arrays, of which the judge is lent the second.
#[derive(Clone, Copy)]
pub struct Outcomes {
    pub ended: [u32; Copies::COUNT],
    pub started: [u32; Copies::COUNT],
}

// The runs in which a copy has one of two results, of copies that end in these runs.
fn fed_by(p: Outgoing, b: Outgoing, x: u32, y: u32, c: Copy) -> u32
    ensures { result ≡ fed_of p b x y c }
{
    either(in_time(p, c), x, in_time(b, c), y)
}

// The results of a task whose copies are settled go out by a link.
fn send(
    copies: &Copies,
    leave: &[u32; Copies::COUNT],
    outcomes: &Outcomes,
    l: Link,
    fed: &mut [u32; Copies::COUNT],
)
    requires { Sendable leave.now l }
    ensures { fed.new ≡ fed_with copies.now leave.now l
        outcomes.now.ended fed.old }
{
    let i = 2 * (l.from as usize);
    let t = 2 * (l.to as usize);
    let p = copies.result_at(leave, l.delay, i);
    let b = copies.result_at(leave, l.delay, i + 1);
    let x = outcomes.ended[i];
    let y = outcomes.ended[i + 1];
    fed[t] &= fed_by(p, b, x, y, copies.at(t));
    fed[t + 1] &= fed_by(p, b, x, y, copies.at(t + 1));
}

// Sends by the links of the tasks before j, from link k on, and says which link is next. Links rise by from.
fn send_before(
    job: &Job,
    copies: &Copies,
    leave: &[u32; Copies::COUNT],
    outcomes: &Outcomes,
    j: usize,
    k: usize,
    fed: &mut [u32; Copies::COUNT],
) -> usize
    requires placed { Placed job.now copies.now leave.now }
    requires within { k ≤ links job.now }
    ensures upto { (w : Placed job.now copies.now leave.now) (losses : Losses)
        → Upto job.now w.plan losses j k fed.old outcomes.now → Upto job.now w.plan losses j result fed.new outcomes.now }
    ensures left { result < links job.now → j ≤ (link job.now result).from }
{
    let m = job.link_count as usize;
    for i in k..m {
        let l = job.links[i];
        if j <= l.from as usize {
            return i;
        }
        send(copies, leave, outcomes, l, fed);
    }
    m
}

// In which runs the copies of task j end and start, of which it is known in which they have their inputs. A backup is called on where its primary
// does not end.
fn settle(
    job: &Job,
    copies: &Copies,
    fed: &[u32; Copies::COUNT],
    losses: &Losses,
    j: usize,
    outcomes: &mut Outcomes,
)
    requires { Settleable job.now copies.now j }
    ensures { Settled job.now copies.now fed.now losses.now j outcomes.old outcomes.new }
{
    let p = 2 * j;
    let b = 2 * j + 1;
    let primary = copies.at(p);
    let backup = copies.at(b);
    let own = job.nodes[primary.node as usize];
    let other = job.nodes[backup.node as usize];
    let may = pick(job.tasks[j].ready <= primary.start, fed[p], 0);
    let ends = may & losses.spared(own.group, primary.finish);
    outcomes.ended[p] = ends;
    outcomes.started[p] = may & losses.spared(own.group, primary.start + 1);
    let could = pick(primary.finish + own.detect <= backup.start, fed[b], 0);
    let called = without(could, ends);
    outcomes.ended[b] = called & losses.spared(other.group, backup.finish);
    outcomes.started[b] = called & losses.spared(other.group, backup.start + 1);
}

// Tasks go by number, and a task's results go out by its links before the next task, as replay has it.
pub fn run_all(
    job: &Job,
    copies: &Copies,
    leave: &[u32; Copies::COUNT],
    losses: &Losses,
) -> Outcomes
    requires { Placed job.now copies.now leave.now }
    ensures { (w : Placed job.now copies.now leave.now)
        → Told job.now w.plan losses.now (tasks job.now) result }
{
    let mut outcomes = Outcomes {
        ended: [0; Copies::COUNT],
        started: [0; Copies::COUNT],
    };
    let mut fed = [ALL; Copies::COUNT];
    let n = job.task_count as usize;
    let mut k: usize = 0;
    for j in 0..n {
        k = send_before(job, copies, leave, &outcomes, j, k, &mut fed);
        settle(job, copies, &fed, losses, j, &mut outcomes);
    }
    outcomes
}
