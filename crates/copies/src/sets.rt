// Sets of groups, of nodes and of tasks: the bits of a number.
ghost use Rattle.std.specs.Prelude.{cond, ◌≡◌, ◌^◌, ◌<◌};
ghost use Rattle.copies.specs.Sets.{has};

// The set of every group.
pub const ALL: u32 = u32::MAX;

pub fn bit_of(n: u32) -> u32
    requires { n < 32 }
    ensures { result ≡ 2 ^ n }
{
    1 << n
}

#[tactic(auto, unfolding(crate::specs::Sets::has))]
pub fn holds(set: u32, n: u32) -> bool
    requires { n < 32 }
    ensures { result ≡ has set n }
{
    (set >> n) % 2 == 1
}

// The set of task i where its result is late, else none.
pub fn late_bit(kept: bool, i: usize) -> u64
    requires { i < 64 }
    ensures { result ≡ cond kept 0 (2 ^ i) }
{
    u64::from(!kept) << i
}
