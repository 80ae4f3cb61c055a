// Asking for a place, and taking it: document 02, request (iii), over values.
#![tactic(auto)]

ghost use Rattle.std.specs.Prelude.{◌≡◌};
ghost use Rattle.reader.specs.declared.job.Job.{Job};
ghost use Rattle.reader.specs.Refusals.{answered};
ghost use Rattle.rules.specs.declared.Description.{Description};
ghost use Rattle.rules.specs.Description.{full_fault};
ghost use Rattle.rules.specs.Asking.{ask as ask_of, commit as commit_of};
ghost use Rattle.asking.specs.Calls.{Asking, Committing, asked, committed, with_job};

use crate::beside::place_new;
use crate::longer::{longer_job, longer_plan};
use judge::judge_plan;
use planner::places::place_of;
use reader::job::Job;
use reader::plan::{Place, Plan};
use reader::refusal::Refusal;
use rules::Description;

pub mod beside;
pub mod description_file;
pub mod longer;

// Whether the described task, with its links, has room in the job.
pub fn full(job: &Job, d: &Description) -> Result<(), Refusal>
    ensures { result ≡ answered (full_fault job.now d.now) }
{
    let n = job.task_count as usize;
    let links = job.link_count as usize + d.link_count as usize;
    if n < Job::MAX_TASKS && links <= Job::MAX_LINKS {
        return Ok(());
    }
    Err(Refusal::Full(n))
}

// Where the new task would go beside the plan. Nothing is booked.
pub fn ask(job: &Job, plan: &Plan, d: &Description) -> Result<Place, Refusal>
    requires { Asking job.now plan.now d.now }
    ensures { result ≡ asked (ask_of job.now plan.now d.now) }
{
    let pair = place_new(job, plan, d)?;
    Ok(place_of(pair.primary, pair.backup))
}

// The new task at a proposed place, if it still keeps all rules there: the longer job and the longer plan.
pub fn commit(job: &Job, plan: &Plan, d: &Description, place: Place) -> Result<(Job, Plan), Refusal>
    requires { Committing job.now plan.now d.now place }
    ensures { result ≡ committed (commit_of job.now plan.now d.now place) }
{
    let mut longer = Job::empty();
    let places = commit_to(job, plan, d, place, &mut longer)?;
    Ok((longer, places))
}

// The same with the longer job in a lent one, which a refusal leaves as it was: as a value its 11 KB are copied at each `?`.
pub fn commit_to(
    job: &Job,
    plan: &Plan,
    d: &Description,
    place: Place,
    longer: &mut Job,
) -> Result<Plan, Refusal>
    requires { Committing job.now plan.now d.now place }
    ensures answer { with_job result longer.new ≡ committed (commit_of job.now plan.now d.now place) }
    ensures kept { (r : Refusal) → result ≡ Err r → longer.new ≡ longer.old }
{
    let whole = longer_job(job, d);
    let places = longer_plan(job, plan, place);
    let Ok(()) = judge_plan(&whole, &places) else {
        return Err(Refusal::Stale(job.task_count as usize));
    };
    *longer = whole;
    Ok(places)
}
