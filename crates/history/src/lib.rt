// Run times from the last runs: a log of records, the window of the newest of them, and the job with their times. What the rack's console calls
// for it is thin above that.
#![tactic(auto)]

pub mod log;
pub mod renewed;
pub mod times;
pub mod window;

ghost use Rattle.std.specs.Prelude.{◌≡◌};
ghost use Rattle.reader.specs.Refusals.{result_number};
ghost use Rattle.history.specs.Calls.{run_times, renew_job};

use crate::renewed::{put_table, renew};
use reader::job::Job;
use reader::job_file::fill_job;
use reader::refusal::{Refusal, result_number};
use writer::{room, write_job};

// The table of run times of a job file and a log.
pub fn run_times(file: &[u8], log: &[u8], out: &mut [u8]) -> Result<(), Refusal>
    ensures { run_times file.now log.now out.old ≡ record { answer = result; buffer = out.new } }
{
    let mut job = Job::empty();
    fill_job(file, &mut job)?;
    let need = 4 * ((job.node_count as usize) * (job.task_count as usize));
    room(out, need)?;
    let new = renew(&job, log)?;
    put_table(out, &new);
    Ok(())
}

// The job file with these run times: the steps of the call above, but each asks for its own room between the job and the log.
pub fn renew_job(file: &[u8], log: &[u8], out: &mut [u8]) -> Result<(), Refusal>
    ensures { renew_job file.now log.now out.old ≡ record { answer = result; buffer = out.new } }
{
    let mut job = Job::empty();
    fill_job(file, &mut job)?;
    room(out, file.len())?;
    let new = renew(&job, log)?;
    write_job(&new, out)
}

// Run times from the last runs, a number for each task and node.
pub fn seqopchi_run_times(job: &[u8], log: &[u8], out: &mut [u8]) -> u64
    ensures { (result ≡ result_number (run_times job.now log.now out.old).answer)
        × (out.new ≡ (run_times job.now log.now out.old).buffer) }
{
    result_number(run_times(job, log, out))
}

// The job with these run times in place of its own.
pub fn seqopchi_renew_job(job: &[u8], log: &[u8], out: &mut [u8]) -> u64
    ensures { (result ≡ result_number (renew_job job.now log.now out.old).answer)
        × (out.new ≡ (renew_job job.now log.now out.old).buffer) }
{
    result_number(renew_job(job, log, out))
}
