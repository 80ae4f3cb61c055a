// Runs as the bits of a number: what is worked out for 32 of them at once.
ghost use Rattle.std.specs.Prelude.{not, ◌≡◌, leb, eqb};
ghost use Rattle.reader.specs.Tests.{◌or◌};
ghost use Rattle.trial.specs.Words.{run_count, without_of, either_of, spared_in};

use copies::arrival::pick;
use copies::sets::bit_of;

// How many.
pub const RUNS: usize = 32;

// What each run loses: run r the group lost[r], at moment[r]. Two arrays of numbers, since the hot loop compares 32 of each at once.
#[derive(Clone, Copy)]
pub struct Losses {
    pub lost: [u32; RUNS],
    pub moment: [u32; RUNS],
}

// The runs of b that are not in a.
#[tactic(auto, using(crate::proofs::WordLaws::without_lem))]
pub fn without(b: u32, a: u32) -> u32
    ensures { result ≡ without_of b a }
{
    b & !a
}

// The runs of a, if the first test holds, with those of b, if the second does.
pub fn either(first: bool, a: u32, second: bool, b: u32) -> u32
    ensures { result ≡ either_of first a second b }
{
    pick(first, a, 0) | pick(second, b, 0)
}

// Whether a node of one group is there up to a tick, when a group is lost at a moment.
fn stays(lost: u32, moment: u32, group: u32, by: u32) -> bool
    ensures { result ≡ (not (eqb lost group) or leb by moment) }
{
    (lost != group) | (by <= moment)
}

impl Losses {
    // The runs in which it is.
    #[tactic(auto, using(crate::proofs::WordLaws::spared_start))]
    pub fn spared(&self, group: u32, by: u32) -> u32
        ensures { result ≡ spared_in self.now group by run_count }
    {
        let mut runs: u32 = 0;
        for r in 0..RUNS {
            runs |= pick(
                stays(self.lost[r], self.moment[r], group, by),
                bit_of(r as u32),
                0,
            );
        }
        runs
    }
}
