// One pass over the links: the weak ones, the first that breaks D, and those that may break E.
ghost use Rattle.std.specs.Prelude.{◌≡◌, replicate};
ghost use Rattle.reader.specs.Limits.{max_tasks};
ghost use Rattle.judge.specs.Links.{Timed, LinksJudged};

use crate::note::noted;
use copies::arrival::in_time;
use copies::sets::late_bit;
use copies::table::Copies;
use reader::job::Job;
use reader::refusal::Refusal;

// The senders whose links leave E to the fault sets (by those of all others both results are in time for the backup), refused or not, and D's answer.
// `into` has for each task, as bits, the tasks from which weak links lead to it; `leave` has when the result of each copy leaves.
pub fn walk_links(
    job: &Job,
    copies: &Copies,
    leave: &[u32; Copies::COUNT],
    into: &mut [u64; Job::MAX_TASKS],
) -> (u64, Result<(), Refusal>)
    requires { Timed job.now copies.now leave.now × (into.old ≡ replicate max_tasks 0) }
    ensures { LinksJudged job.now copies.now into.new result }
{
    let mut primary = None;
    let mut unsure = 0;
    for k in 0..job.link_count as usize {
        let l = &job.links[k];
        let i = l.from as usize;
        let j = l.to as usize;
        let p = copies.result_at(leave, l.delay, 2 * i);
        let b = copies.result_at(leave, l.delay, 2 * i + 1);
        let q = copies.at(2 * j);
        let c = copies.at(2 * j + 1);
        primary = noted(primary, k, in_time(p, q));
        let first = late_bit(in_time(p, c), i);
        let second = late_bit(in_time(b, c), i);
        unsure |= first | second;
        into[j] |= late_bit(in_time(b, q), i);
    }
    if let Some(k) = primary {
        let l = &job.links[k];
        let unfed = Refusal::PrimaryUnfed(l.from as usize, l.to as usize);
        return (unsure, Err(unfed));
    }
    (unsure, Ok(()))
}
