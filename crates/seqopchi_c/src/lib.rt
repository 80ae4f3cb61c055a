// The library for the rack's console, which is written in C: each function calls the one of its name in the crate that it comes from, whose
// clauses it has. The header is include/seqopchi.h.
#![tactic(auto)]

ghost use Rattle.std.specs.Prelude.{◌≡◌};
ghost use Rattle.std.proofs.Math.Option.{none, some};
ghost use Rattle.reader.specs.Refusals.{answered, told, answer_of, result_number};
ghost use Rattle.rules.specs.declared.Loss.TheVariants.{NoLoss, Lost};
ghost use Rattle.seqopchi.specs.Files.{judge_files, plan_file, refusal_of, replay_files, sets_files};
ghost use Rattle.booking.specs.Asks.{ask_files, places_after, commit_into};
ghost use Rattle.trial.specs.Calls.{TrialAnswers};
ghost use Rattle.history.specs.Calls.{run_times, renew_job};
ghost use Rattle.sentence.specs.Sentence.{print_sentence};
ghost use Rattle.sentence.specs.Reading.{read_sentence, reading_of, handed};

// Judges a job file and a plan file.
#[unsafe(no_mangle)]
pub extern "C" fn seqopchi_judge(job: &[u8], plan: &[u8]) -> u64
    ensures { result ≡ result_number (answered (judge_files job.now plan.now)) }
{
    seqopchi::seqopchi_judge(job, plan)
}

// Plans a job file into a buffer, as a plan file.
#[unsafe(no_mangle)]
pub extern "C" fn seqopchi_plan(job: &[u8], out: &mut [u8]) -> u64
    ensures { (result ≡ result_number (plan_file job.now out.old).answer)
        × (out.new ≡ (plan_file job.now out.old).buffer) }
{
    seqopchi::seqopchi_plan(job, out)
}

// Replays two files with no loss: three numbers for each task.
#[unsafe(no_mangle)]
pub extern "C" fn seqopchi_replay(job: &[u8], plan: &[u8], out: &mut [u8]) -> u64
    ensures { (result ≡ result_number (replay_files job.now plan.now NoLoss none out.old).answer)
        × (out.new ≡ (replay_files job.now plan.now NoLoss none out.old).buffer) }
{
    seqopchi::seqopchi_replay(job, plan, out)
}

// The same, with a group lost at a moment: every node of it.
#[unsafe(no_mangle)]
pub extern "C" fn seqopchi_replay_loss(
    job: &[u8],
    plan: &[u8],
    group: u32,
    moment: u32,
    out: &mut [u8],
) -> u64
    ensures { (result ≡ result_number (replay_files job.now plan.now (Lost group moment) none out.old).answer)
        × (out.new ≡ (replay_files job.now plan.now (Lost group moment) none out.old).buffer) }
{
    seqopchi::seqopchi_replay_loss(job, plan, group, moment, out)
}

// Replays two files with no loss, each copy taking the ticks that a list says.
#[unsafe(no_mangle)]
pub extern "C" fn seqopchi_replay_times(
    job: &[u8],
    plan: &[u8],
    times: &[u8],
    out: &mut [u8],
) -> u64
    ensures { (result ≡ result_number (replay_files job.now plan.now NoLoss (some times.now) out.old).answer)
        × (out.new ≡ (replay_files job.now plan.now NoLoss (some times.now) out.old).buffer) }
{
    seqopchi::seqopchi_replay_times(job, plan, times, out)
}

// The same, with a group lost at a moment.
#[unsafe(no_mangle)]
pub extern "C" fn seqopchi_replay_times_loss(
    job: &[u8],
    plan: &[u8],
    group: u32,
    moment: u32,
    times: &[u8],
    out: &mut [u8],
) -> u64
    ensures { (result ≡ result_number (replay_files job.now plan.now (Lost group moment) (some times.now)
        out.old).answer)
        × (out.new ≡ (replay_files job.now plan.now (Lost group moment) (some times.now)
        out.old).buffer) }
{
    seqopchi::seqopchi_replay_times_loss(job, plan, group, moment, times, out)
}

// The fault sets of two files, passed or not: a number for each task, bit q for group q.
#[unsafe(no_mangle)]
pub extern "C" fn seqopchi_fault_sets(job: &[u8], plan: &[u8], out: &mut [u8]) -> u64
    ensures { (result ≡ result_number (sets_files job.now plan.now out.old).answer)
        × (out.new ≡ (sets_files job.now plan.now out.old).buffer) }
{
    seqopchi::seqopchi_fault_sets(job, plan, out)
}

// Where one task more would go, as four numbers. Nothing is booked.
#[unsafe(no_mangle)]
pub extern "C" fn seqopchi_ask(job: &[u8], plan: &[u8], task: &[u8], places: &mut [u32; 4]) -> u64
    ensures { (result ≡ result_number (answered (refusal_of (ask_files job.now plan.now task.now))))
        × (places.new ≡ places_after (ask_files job.now plan.now task.now) places.old) }
{
    booking::seqopchi_ask(job, plan, task, places)
}

// Takes a place: the longer job and the longer plan, as files.
#[unsafe(no_mangle)]
pub extern "C" fn seqopchi_commit(
    job: &[u8],
    plan: &[u8],
    booking: &[u8],
    out_job: &mut [u8],
    out_plan: &mut [u8],
) -> u64
    ensures { (result ≡ result_number (commit_into job.now plan.now booking.now
        out_job.old out_plan.old).answer)
        × (out_job.new ≡ (commit_into job.now plan.now booking.now
        out_job.old out_plan.old).job)
        × (out_plan.new ≡ (commit_into job.now plan.now booking.now
        out_job.old out_plan.old).plan) }
{
    booking::seqopchi_commit(job, plan, booking, out_job, out_plan)
}

// Tries two files: 0 is yes.
#[unsafe(no_mangle)]
pub extern "C" fn seqopchi_trial(job: &[u8], plan: &[u8]) -> u64
    ensures { TrialAnswers job.now plan.now result }
{
    trial::seqopchi_trial(job, plan)
}

// Run times from the last runs, a number for each task and node.
#[unsafe(no_mangle)]
pub extern "C" fn seqopchi_run_times(job: &[u8], log: &[u8], out: &mut [u8]) -> u64
    ensures { (result ≡ result_number (run_times job.now log.now out.old).answer)
        × (out.new ≡ (run_times job.now log.now out.old).buffer) }
{
    history::seqopchi_run_times(job, log, out)
}

// The job with these run times in place of its own.
#[unsafe(no_mangle)]
pub extern "C" fn seqopchi_renew_job(job: &[u8], log: &[u8], out: &mut [u8]) -> u64
    ensures { (result ≡ result_number (renew_job job.now log.now out.old).answer)
        × (out.new ≡ (renew_job job.now log.now out.old).buffer) }
{
    history::seqopchi_renew_job(job, log, out)
}

// Prints the sentence of a refusal into a buffer.
#[unsafe(no_mangle)]
pub extern "C" fn seqopchi_sentence(number: u32, first: u64, second: u64, out: &mut [u8]) -> u64
    ensures { (result ≡ result_number (print_sentence (told number first second) out.old).answer)
        × (out.new ≡ (print_sentence (told number first second) out.old).buffer) }
{
    sentence::seqopchi_sentence(number, first, second, out)
}

// Reads a sentence back into three numbers: the refusal's number and both places.
#[unsafe(no_mangle)]
pub extern "C" fn seqopchi_read_sentence(text: &[u8], parts: &mut [u64; 3]) -> u64
    ensures { (result ≡ result_number (answer_of (reading_of text.now (read_sentence text.now))))
        × (parts.new ≡ handed (read_sentence text.now) parts.old) }
{
    sentence::seqopchi_read_sentence(text, parts)
}
