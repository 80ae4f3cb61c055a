// The listing program's text: the plan of a job file line by line, or why there is none.
#![tactic(auto)]

ghost use Rattle.std.specs.Prelude.{◌+◌, ◌*◌, ◌≤◌, length, get_or};
ghost use Rattle.reader.specs.Limits.{max_tasks};
ghost use Rattle.reader.specs.Entries.{no_place};
ghost use Rattle.reader.specs.Sound.{Sound};
ghost use Rattle.writer.specs.Write.{flat};
ghost use Rattle.rules.specs.Planner.{planner};
ghost use Rattle.decimal.specs.Prints.{Prints, Grows};
ghost use Rattle.text.specs.Text.{row, plan_text, refusal_text, attempt_text, listing, max_row, max_text};

use crate::print::put_field;
use decimal::print::Page;
use planner::plan_job;
use reader::job::Job;
use reader::job_file::fill_job;
use reader::plan::{Place, Plan};
use reader::refusal::{Refusal, Told};

pub mod print;

// Bytes of a file that decide its text: what stands behind them changes nothing (proofs/FirstBytes.antt).
pub const ENOUGH: usize = Job::MAX_LENGTH + 1;

// Bytes of the longest text: the header, and rows of five numbers of 20 digits, each with a byte behind it.
pub const MAX_TEXT: usize = 26 + Job::MAX_TASKS * 5 * 21;

// The row of a task.
fn put_row(page: &mut Page<'_>, task: usize, place: Place)
    requires { page.old.end + max_row ≤ length page.old.buffer.now }
    ensures { (page.new.end ≤ page.old.end + max_row) × Grows page.old page.new (row task place) }
{
    put_field(page, task, b' ');
    put_field(page, place.primary_node as usize, b' ');
    put_field(page, place.primary_start as usize, b' ');
    put_field(page, place.backup_node as usize, b' ');
    put_field(page, place.backup_start as usize, b'\n');
}

// The rows of tasks 0, 1, ..
fn put_rows(page: &mut Page<'_>, places: &[Place])
    requires { page.old.end + max_row * length places.now ≤ length page.old.buffer.now }
    ensures { (page.new.end ≤ page.old.end + max_row * length places.now)
        × Grows page.old page.new (flat (length places.now) (λ j. row j (get_or places.now j no_place))) }
{
    for (j, place) in places.iter().enumerate() {
        put_row(page, j, *place);
    }
}

// The plan as a value: of a lent one the length of its array is no fact of the proof.
fn put_plan(page: &mut Page<'_>, plan: Plan)
    requires { (plan.task_count ≤ max_tasks) × (page.old.end + max_text ≤ length page.old.buffer.now) }
    ensures { (page.new.end ≤ page.old.end + max_text) × Grows page.old page.new (plan_text plan) }
{
    page.put_text(b"task primary at backup at\n");
    put_rows(page, &plan.places[..plan.task_count as usize]);
}

fn put_refusal(page: &mut Page<'_>, refusal: Refusal)
    requires { page.old.end + max_text ≤ length page.old.buffer.now }
    ensures { (page.new.end ≤ page.old.end + max_text) × Grows page.old page.new (refusal_text refusal) }
{
    let told = Told::from(refusal);
    page.put_text(b"refused ");
    put_field(page, told.number as usize, b' ');
    put_field(page, told.first, b' ');
    put_field(page, told.second, b'\n');
}

// The plan of a job, or why there is none.
fn put_planned(page: &mut Page<'_>, job: &Job)
    requires { Sound job.now × (page.old.end + max_text ≤ length page.old.buffer.now) }
    ensures { (page.new.end ≤ page.old.end + max_text) × Grows page.old page.new (attempt_text (planner job.now)) }
{
    match plan_job(*job) {
        Ok(plan) => put_plan(page, plan),
        Err(refusal) => put_refusal(page, refusal),
    }
}

// Lists the plan of a job file at the front of a buffer, and gives the text's length. The job is filled where it lies: in a Result it would be
// cleared and copied once more.
pub fn list_job(job: &[u8], out: &mut [u8; MAX_TEXT]) -> usize
    ensures { (result ≤ max_text) × Prints out.old 0 (listing job.now) out.new result }
{
    let mut page = Page {
        buffer: out,
        end: 0,
    };
    let mut value = Job::empty();
    match fill_job(job, &mut value) {
        Ok(()) => put_planned(&mut page, &value),
        Err(refusal) => put_refusal(&mut page, refusal),
    }
    page.end
}
