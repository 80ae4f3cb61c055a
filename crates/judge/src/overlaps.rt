// Rule G: the first pair of tasks of which copies clash, by a sweep over the copies of each node in order of time.
ghost use Rattle.std.specs.Prelude.{cond, not, ◌≡◌, ◌+◌, ◌-◌, ◌/◌, ◌<◌, min, ltb, eqb, get_or};
ghost use Rattle.reader.specs.Tests.{◌and◌};
ghost use Rattle.reader.specs.First.{first};
ghost use Rattle.reader.specs.Refusals.{answered};
ghost use Rattle.reader.specs.Limits.{max_nodes};
ghost use Rattle.copies.specs.Sets.{meets};
ghost use Rattle.copies.specs.Table.{copy_count};
ghost use Rattle.copies.specs.Layout.{spots_from};
ghost use Rattle.copies.specs.Laying.{Filled};
ghost use Rattle.judge.specs.Faults.{Low};
ghost use Rattle.judge.specs.Overlaps.{pair_of, pair_breach, pair_behind, pair_within, pair_on, AllFilled};

use copies::layout::Layout;
use copies::table::Copies;
use reader::job::Job;
use reader::refusal::Refusal;

// Above the number of each pair, so that a minimum of pairs begins with it; as an Option each minimum would have a case for none.
const NO_PAIR: usize = Job::MAX_TASKS * Job::MAX_TASKS;

// The tasks of two entries as one number, which rises with the lower task, then with the higher.
#[tactic(auto, unfolding(crate::specs::Overlaps::pair_of))]
fn pair_of(a: usize, b: usize) -> usize
    requires { (a < copy_count) × (b < copy_count) }
    ensures { result ≡ pair_of a b }
{
    let i = a / 2;
    let j = b / 2;
    Job::MAX_TASKS * i.min(j) + i.max(j)
}

// Whether entries clash of which the second starts before the first one's finish: their sets meet, and the first starts before the second's finish.
fn meet(start: u32, set: u32, finish: u32, other: u32) -> bool
    ensures { result ≡ (meets other set and ltb start finish) }
{
    (other & set != 0) & (start < finish)
}

// The lesser of a pair that is noted and that of entries a and b, where these clash; copies of one task are no pair.
fn note_pair(noted: usize, clash: bool, a: usize, b: usize) -> usize
    requires { (a < copy_count) × (b < copy_count) }
    ensures { result ≡ cond (clash and not (eqb (a / 2) (b / 2))) (min noted (pair_of a b)) noted }
{
    let pair = pair_of(a, b);
    if clash & (a / 2 != b / 2) {
        noted.min(pair)
    } else {
        noted
    }
}

// The least of a pair and those of the entry in spot p with each behind it, before spot `to`. One that starts behind its finish does not clash, and
// nor does any after that.
fn pair_behind(copies: &Copies, layout: &Layout, p: usize, to: usize, least: usize) -> usize
    requires { (p < to) × Filled layout.now.order p to }
    ensures { result ≡ pair_behind copies.now (get_or layout.now.order p 0)
        (spots_from layout.now.order (p + 1) (to - (p + 1))) least }
{
    let k = layout.entry_at(p);
    let mut noted = least;
    for q in p + 1..to {
        let e = layout.entry_at(q);
        let at = copies.start[e];
        let end = copies.finish[k];
        if end <= at {
            return noted;
        }
        let clash = meet(
            copies.start[k],
            copies.set[k],
            copies.finish[e],
            copies.set[e],
        );
        noted = note_pair(noted, clash, k, e);
    }
    noted
}

// The same of all entries of a node, which stand in the spots from `from` up to `to`.
fn pair_within(copies: &Copies, layout: &Layout, from: usize, to: usize, least: usize) -> usize
    requires { Filled layout.now.order from to }
    ensures { result ≡ pair_within copies.now (spots_from layout.now.order from (to - from)) least }
{
    let mut noted = least;
    for p in from..to {
        noted = pair_behind(copies, layout, p, to, noted);
    }
    noted
}

// And of all nodes.
fn least_pair(copies: &Copies, layout: &Layout) -> usize
    requires { AllFilled layout.now.order layout.now.count }
    ensures { result ≡ pair_on copies.now layout.now.order layout.now.count max_nodes }
{
    let mut noted = NO_PAIR;
    for m in 0..Job::MAX_NODES {
        let base = m * Copies::COUNT;
        noted = pair_within(copies, layout, base, base + layout.count[m], noted);
    }
    noted
}

// G.
pub fn overlapping(copies: &Copies, n: usize) -> Result<(), Refusal>
    requires { Low copies.now.node n }
    ensures { result ≡ answered (first n (pair_breach copies.now n)) }
{
    let mut layout = Layout::empty();
    layout.lay_all(copies, 2 * n);
    let pair = least_pair(copies, &layout);
    if pair == NO_PAIR {
        return Ok(());
    }
    Err(Refusal::Overlap(pair / Job::MAX_TASKS, pair % Job::MAX_TASKS))
}
