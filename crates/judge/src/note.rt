// The first place at which a rule is broken.
ghost use Rattle.std.specs.Prelude.{◌≡◌};
ghost use Rattle.judge.specs.Notes.{noted_of};

// After one place more: the least that breaks the rule, in whatever order they come.
#[tactic(auto, unfolding(crate::specs::Notes::noted_of))]
pub fn noted(first: Option<usize>, at: usize, kept: bool) -> Option<usize>
    ensures { result ≡ noted_of first at kept }
{
    if kept {
        return first;
    }
    match first {
        Some(i) => Some(i.min(at)),
        None => Some(at),
    }
}
