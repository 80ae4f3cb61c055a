// A pass over 32 runs: their losses, and whether all of them are good.
ghost use Rattle.std.specs.Prelude.{true, ◌↔◌, ◌≡◌, ◌≤◌};
ghost use Rattle.reader.specs.Tests.{◌implies◌};
ghost use Rattle.reader.specs.First.{every};
ghost use Rattle.reader.specs.Entries.{tasks};
ghost use Rattle.reader.specs.Limits.{max_tasks};
ghost use Rattle.trial.specs.Runs.{Placed};
ghost use Rattle.trial.specs.Passes.{done_in, ends_in, Losable, LossesFrom, Passes};

use crate::runs::{Outcomes, run_all};
use crate::words::{Losses, RUNS, either};
use copies::sets::ALL;
use copies::table::Copies;
use judge::overlaps::overlapping;
use reader::job::Job;

// No group has this number: that of the loss of nothing. Hot loops compare it, so it is no Option.
const NO_GROUP: u32 = 16;

// The losses of the primaries from that of task `first` on. Where there is none, nothing is lost.
fn set_losses(job: &Job, copies: &Copies, first: usize) -> Losses
    requires { Losable job.now.nodes copies.now.node copies.now.finish (tasks job.now) × (first ≤ max_tasks) }
    ensures { LossesFrom job.now.nodes copies.now.node copies.now.finish first (tasks job.now) result }
{
    let mut losses = Losses {
        lost: [NO_GROUP; RUNS],
        moment: [0; RUNS],
    };
    let n = job.task_count as usize;
    for r in 0..RUNS {
        let j = first + r;
        if n <= j {
            return losses;
        }
        let p = copies.node[2 * j] as usize;
        let own = job.nodes[p];
        losses.lost[r] = own.group;
        losses.moment[r] = copies.finish[2 * j] - 1;
    }
    losses
}

// Whether in every run each task is done by its deadline.
#[tactic(auto, using(reader::proofs::FirstLaws::every_start))]
fn all_done(job: &Job, copies: &Copies, outcomes: &Outcomes) -> bool
    requires { tasks job.now ≤ max_tasks }
    ensures { result ≡ every (tasks job.now) (done_in job.now.tasks copies.now.finish outcomes.now.ended) }
{
    let n = job.task_count as usize;
    for j in 0..n {
        let by = job.tasks[j].deadline;
        let done = either(
            copies.finish[2 * j] <= by,
            outcomes.ended[2 * j],
            copies.finish[2 * j + 1] <= by,
            outcomes.ended[2 * j + 1],
        );
        if done != ALL {
            return false;
        }
    }
    true
}

// Whether in every run each of the first n primaries ends.
#[tactic(auto, using(reader::proofs::FirstLaws::every_start))]
fn all_end(outcomes: &Outcomes, n: usize) -> bool
    requires { n ≤ max_tasks }
    ensures { result ≡ every n (ends_in outcomes.now.ended) }
{
    for j in 0..n {
        if outcomes.ended[2 * j] != ALL {
            return false;
        }
    }
    true
}

// Whether the runs with the losses of the primaries from `first` on are good: each task is done by its deadline, and no two started copies overlap.
// As the set of a copy the judge is lent the runs in which it starts: it finds copies that overlap and whose sets meet. If `strict`, every primary must
// end too.
pub fn pass(
    job: &Job,
    copies: &Copies,
    leave: &[u32; Copies::COUNT],
    first: usize,
    strict: bool,
) -> bool
    requires placed { Placed job.now copies.now leave.now }
    requires within { first ≤ max_tasks }
    ensures { (w : Placed job.now copies.now leave.now)
        → (result ≡ true) ↔ Passes job.now w.plan first strict }
{
    let losses = set_losses(job, copies, first);
    let outcomes = run_all(job, copies, leave, &losses);
    let n = job.task_count as usize;
    if strict && !all_end(&outcomes, n) {
        return false;
    }
    if !all_done(job, copies, &outcomes) {
        return false;
    }
    let marked = Copies {
        set: outcomes.started,
        ..*copies
    };
    overlapping(&marked, n).is_ok()
}
