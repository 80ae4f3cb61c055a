// Asking for a place in files, and taking it: what the rack's console calls for it, thin above the proved core.
#![tactic(auto)]

ghost use Rattle.std.specs.Prelude.{◌≡◌};
ghost use Rattle.reader.specs.Entries.{empty_job};
ghost use Rattle.reader.specs.JobFile.{job_at};
ghost use Rattle.reader.specs.Refusals.{resulted, answered, result_number};
ghost use Rattle.reader.specs.Sound.{Sound, PlanSound};
ghost use Rattle.rules.specs.Attempts.{placed};
ghost use Rattle.asking.specs.Calls.{asked, committed, with_job};
ghost use Rattle.seqopchi.specs.Files.{plan_in, judge_files, refusal_of};
ghost use Rattle.booking.specs.Asks.{ask_files, commit_files, places_after, books, commit_into};

use asking::description_file::{Shape, read_booking, read_question};
use asking::{ask, commit_to, full};
use judge::judge_plan;
use reader::job::Job;
use reader::job_file::fill_job;
use reader::plan::{Place, Plan};
use reader::plan_file::read_plan;
use reader::refusal::{Refusal, result_number};
use writer::{put_job, put_plan, room};

// Both files, read and judged: a plan that passes, and into an empty job the job of it, which as a part of the Result would be copied at each `?`.
fn passed_files(job: &[u8], plan: &[u8], held: &mut Job) -> Result<Plan, Refusal>
    requires { held.old ≡ empty_job }
    ensures { with_job result held.new ≡ resulted (judge_files job.now plan.now) (job_at job.now, plan_in job.now plan.now) }
{
    fill_job(job, held)?;
    let places = read_plan(plan, held)?;
    judge_plan(held, &places)?;
    Ok(places)
}

// Where the task that a file describes would go.
pub fn ask_files(job: &[u8], plan: &[u8], task: &[u8]) -> Result<Place, Refusal>
    ensures { result ≡ asked (ask_files job.now plan.now task.now) }
{
    let mut held = Job::empty();
    let plan = passed_files(job, plan, &mut held)?;
    let shape = Shape::of(&held);
    let description = read_question(task, shape)?;
    full(&held, &description)?;
    ask(&held, &plan, &description)
}

// The longer job and the longer plan, with the task at the place of a booking.
pub fn commit_files(job: &[u8], plan: &[u8], booking: &[u8]) -> Result<(Job, Plan), Refusal>
    ensures { result ≡ committed (commit_files job.now plan.now booking.now) }
{
    let mut longer = Job::empty();
    let places = commit_files_to(job, plan, booking, &mut longer)?;
    Ok((longer, places))
}

// The same with the longer job in a lent one, which a refusal leaves as it was.
#[inline(never)]
pub fn commit_files_to(
    job: &[u8],
    plan: &[u8],
    booking: &[u8],
    longer: &mut Job,
) -> Result<Plan, Refusal>
    ensures answer { with_job result longer.new ≡ committed (commit_files job.now plan.now booking.now) }
    ensures kept { (r : Refusal) → result ≡ Err r → longer.new ≡ longer.old }
{
    let mut held = Job::empty();
    let plan = passed_files(job, plan, &mut held)?;
    let shape = Shape::of(&held);
    let (description, place) = read_booking(booking, shape)?;
    full(&held, &description)?;
    commit_to(&held, &plan, &description, place, longer)
}

// A job and a plan of it as files, if both have room. By itself, so that its scratch isn't on the stack while a commit is judged. The law that is
// named proves a test for `<` before `room` too, so that a wrong program with `<=` is refused for that alone.
#[inline(never)]
#[tactic(auto, using(crate::proofs::CommitCalls::short_plan))]
fn write_both(
    job: &Job,
    plan: &Plan,
    out_job: &mut [u8],
    out_plan: &mut [u8],
) -> Result<(), Refusal>
    requires { Sound job.now × PlanSound job.now plan.now }
    ensures { books (placed (record { job = job.now; plan = plan.now })) out_job.old out_plan.old
        ≡ record { answer = result; job = out_job.new; plan = out_plan.new } }
{
    let mut scratch = [0u8; Job::MAX_LENGTH];
    let len = put_job(&mut scratch, job);
    room(out_job, len)?;
    let need = 8 + 16 * (plan.task_count as usize);
    room(out_plan, need)?;
    out_job[..len].copy_from_slice(&scratch[..len]);
    put_plan(out_plan, plan);
    Ok(())
}

// Both as files. Nothing is written before it is known that both have room.
pub fn commit_into(
    job: &[u8],
    plan: &[u8],
    booking: &[u8],
    out_job: &mut [u8],
    out_plan: &mut [u8],
) -> Result<(), Refusal>
    ensures { commit_into job.now plan.now booking.now out_job.old out_plan.old
        ≡ record { answer = result; job = out_job.new; plan = out_plan.new } }
{
    let mut longer = Job::empty();
    let places = commit_files_to(job, plan, booking, &mut longer)?;
    write_both(&longer, &places, out_job, out_plan)
}

// Where one task more would go, as four numbers. Nothing is booked.
pub fn seqopchi_ask(job: &[u8], plan: &[u8], task: &[u8], places: &mut [u32; 4]) -> u64
    ensures { (result ≡ result_number (answered (refusal_of (ask_files job.now plan.now task.now))))
        × (places.new ≡ places_after (ask_files job.now plan.now task.now) places.old) }
{
    match ask_files(job, plan, task) {
        Ok(at) => {
            *places = [
                at.primary_node,
                at.primary_start,
                at.backup_node,
                at.backup_start,
            ];
            0
        }
        Err(refusal) => result_number(Err(refusal)),
    }
}

// Takes a place: the longer job and the longer plan, as files.
pub fn seqopchi_commit(
    job: &[u8],
    plan: &[u8],
    booking: &[u8],
    out_job: &mut [u8],
    out_plan: &mut [u8],
) -> u64
    ensures { (result ≡ result_number (commit_into job.now plan.now booking.now
        out_job.old out_plan.old).answer)
        × (out_job.new ≡ (commit_into job.now plan.now booking.now
        out_job.old out_plan.old).job)
        × (out_plan.new ≡ (commit_into job.now plan.now booking.now
        out_job.old out_plan.old).plan) }
{
    result_number(commit_into(job, plan, booking, out_job, out_plan))
}
