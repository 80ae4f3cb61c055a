// A trial of a plan: it runs with no loss, and with the group of each primary lost at the tick before that primary's finish. These stand for all
// moments. What the rack's console calls for it is thin above that.
#![tactic(auto)]

pub mod passes;
pub mod runs;
pub mod words;

ghost use Rattle.std.specs.Prelude.{true, ◌↔◌, ◌≡◌};
ghost use Rattle.reader.specs.JobFile.{job_at};
ghost use Rattle.reader.specs.Reads.{Reads};
ghost use Rattle.reader.specs.Sound.{Sound, PlanSound};
ghost use Rattle.rules.specs.Trial.{Trial};
ghost use Rattle.seqopchi.specs.Files.{plan_in, files_fault};
ghost use Rattle.trial.specs.Calls.{TrialAnswers};

use crate::passes::pass;
use crate::words::RUNS;
use copies::table::Copies;
use judge::tasks::place_copies;
use reader::job::Job;
use reader::job_file::fill_job;
use reader::plan::Plan;
use reader::plan_file::read_plan;
use reader::refusal::{Refusal, result_number};

// Number 0 and first place 1: what C is given for no.
const NO: u64 = 256;

// The pass behind the last primary is that without loss. Two passes hold the losses of all others. What the judge says of the table is put aside.
pub fn trial_plan(job: &Job, plan: &Plan) -> bool
    requires { Sound job.now × PlanSound job.now plan.now }
    ensures { (result ≡ true) ↔ Trial job.now plan.now }
{
    let mut copies = Copies::empty();
    let mut leave = [0; Copies::COUNT];
    let _ = place_copies(job, plan, &mut copies, &mut leave);
    let n = job.task_count as usize;
    pass(job, &copies, &leave, n, true)
        && pass(job, &copies, &leave, 0, false)
        && (n <= RUNS || pass(job, &copies, &leave, RUNS, false))
}

// The same of two files, read by two lines as in each call on a plan.
fn trial_files(job: &[u8], plan: &[u8]) -> Result<bool, Refusal>
    ensures { Reads (files_fault job.now plan.now) result (λ good. (good ≡ true) ↔ Trial (job_at job.now) (plan_in job.now plan.now)) }
{
    let mut value = Job::empty();
    fill_job(job, &mut value)?;
    let places = read_plan(plan, &value)?;
    Ok(trial_plan(&value, &places))
}

// Tries two files: 0 is yes.
pub fn seqopchi_trial(job: &[u8], plan: &[u8]) -> u64
    ensures { TrialAnswers job.now plan.now result }
{
    match trial_files(job, plan) {
        Ok(good) => if good { 0 } else { NO },
        Err(refusal) => result_number(Err(refusal)),
    }
}
