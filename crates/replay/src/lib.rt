// Replay: what becomes of each copy of a plan, with no loss or with one group lost at a moment.
#![tactic(auto)]

pub mod inputs;
pub mod progress;
pub mod states;
pub mod times_file;
pub mod write;

ghost use Rattle.std.specs.Prelude.{◌≡◌, ◌++◌, ◌≤◌, ◌*◌, length, drop, option_copied};
ghost use Rattle.reader.specs.Entries.{tasks};
ghost use Rattle.reader.specs.Sound.{Sound, PlanSound};
ghost use Rattle.rules.specs.Times.{TimesSound};
ghost use Rattle.replay.specs.Outcomes.{outcomes, replay_bytes};
ghost use Rattle.replay.specs.TimesFile.{chosen};

use crate::progress::Progress;
use crate::states::{Outcome, pair_of, settle};
use crate::times_file::took_by;
use crate::write::write_outcomes;
use reader::job::Job;
use reader::plan::Plan;
use rules::{Loss, Times};

// What replay tells of each task.
#[derive(Clone, Copy)]
pub struct Outcomes {
    pub of: [Outcome; Job::MAX_TASKS],
}

// Tasks go by number, and a task's result goes out by its links before the next task. Links rise by from, so each is looked at once.
// A primary waits for its task's ready time too. Copies take the times that are given, or the listed ones.
pub fn replay_plan(job: &Job, plan: &Plan, times: Option<&Times>, loss: Loss) -> Outcomes
    requires { Sound job.now × PlanSound job.now plan.now × TimesSound job.now plan.now (chosen (option_copied times) job.now plan.now) }
    ensures { result ≡ outcomes job.now plan.now (chosen (option_copied times.entry) job.now plan.now) loss }
{
    let n = job.task_count as usize;
    let m = job.link_count as usize;
    let mut r = Progress::start();
    let mut k: usize = 0;
    for j in 0..n {
        // No for: k goes on behind the links that went out before, and a function for the walk, as the trial's, would be lent five things.
        while k < m && (job.links[k].from as usize) < j {
            let l = job.links[k];
            let node = r.node[l.from as usize];
            r.send(l, job.nodes[node as usize], plan.places[l.to as usize]);
            k += 1;
        }
        let task = job.tasks[j];
        let x = plan.places[j];
        let own = job.nodes[x.primary_node as usize];
        let other = job.nodes[x.backup_node as usize];
        let y = pair_of(task, x, took_by(times, j, task, x), own, other);
        let o = settle(y, r.primary[j].max(task.ready), r.backup[j], loss);
        r.store(j, o, x);
    }
    Outcomes { of: r.of }
}

// Replays, and writes what that tells of each task of the job.
#[tactic(auto, using(crate::proofs::WriteLaws::replay_written))]
pub fn replay_into(job: &Job, plan: &Plan, times: Option<&Times>, loss: Loss, out: &mut [u8])
    requires { Sound job.now
        × PlanSound job.now plan.now
        × TimesSound job.now plan.now (chosen (option_copied times) job.now plan.now)
        × (12 * tasks job.now ≤ length out.old) }
    ensures { out.new
        ≡ replay_bytes job.now plan.now (chosen (option_copied times.entry) job.now plan.now) loss ++ drop (12 * tasks job.now) out.old }
{
    let o = replay_plan(job, plan, times, loss);
    let n = job.task_count as usize;
    write_outcomes(&o, n, out);
}
