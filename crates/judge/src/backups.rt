// Rule E, once fault sets are known.
ghost use Rattle.std.specs.Prelude.{◌≡◌};
ghost use Rattle.reader.specs.Refusals.{answered};
ghost use Rattle.copies.specs.Arrival.{fed_of};
ghost use Rattle.judge.specs.Backups.{backup_breach, Unsure};

use copies::arrival::{Outgoing, in_time};
use copies::table::Copies;
use reader::job::Job;
use reader::refusal::Refusal;
use rules::Copy;

// Whether the backup c, of set t, has the result p in time, and where the sets meet b, which is of set s.
fn fed(p: Outgoing, b: Outgoing, s: u32, c: Copy, t: u32) -> bool
    ensures { result ≡ fed_of p b s c t }
{
    in_time(p, c) && (s & t == 0 || in_time(b, c))
}

// The first link that breaks E: only links from the senders in `unsure` can.
pub fn backups_fed(
    job: &Job,
    unsure: u64,
    copies: &Copies,
    leave: &[u32; Copies::COUNT],
) -> Result<(), Refusal>
    requires { Unsure job.now unsure copies.now leave.now }
    ensures { result ≡ answered (backup_breach job.now copies.now leave.now) }
{
    for l in &job.links[..job.link_count as usize] {
        let i = l.from as usize;
        if (unsure >> i) % 2 == 1 {
            let j = l.to as usize;
            let p = copies.result_at(leave, l.delay, 2 * i);
            let b = copies.result_at(leave, l.delay, 2 * i + 1);
            let c = copies.at(2 * j + 1);
            if !fed(p, b, copies.set[2 * i + 1], c, copies.set[2 * j + 1]) {
                return Err(Refusal::BackupUnfed(i, j));
            }
        }
    }
    Ok(())
}
