// Fault sets by receiving task: all links that arrive at one task are gathered before the next.
ghost use Rattle.std.specs.Prelude.{◌≡◌, ℕ};
ghost use Rattle.copies.specs.Sets.{has};
ghost use Rattle.copies.specs.Gathered.{joined, Gathers};

use crate::table::Copies;

// Gathers one task: its set so far, its own primary's group, with the sets of the tasks in `weak`, from which weak links arrive at it. The set is
// handed back, not stored: the planner needs it before it has a row to store.
#[tactic(auto, using(crate::proofs::GatherLaws::sender_low))]
pub fn gather_task(sets: &[u32; Copies::COUNT], so_far: u32, weak: u64) -> u32
    ensures by_index { (q : ℕ) → has result q ≡ joined so_far weak sets.now q }
    ensures gathers { Gathers sets.now so_far weak result }
{
    let mut set = so_far;
    // As many turns as there are members: a `for` over the tasks would have 64.
    let mut left = weak;
    while left != 0 {
        let i = left.trailing_zeros() as usize;
        set |= sets[2 * i + 1];
        left -= 1 << i;
    }
    set
}
