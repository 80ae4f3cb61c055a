// Outcomes as bytes: three numbers for each task.
ghost use Rattle.std.specs.Prelude.{◌*◌, ◌≤◌, ◌++◌, ◌≡◌, length, drop};
ghost use Rattle.reader.specs.Limits.{max_tasks};
ghost use Rattle.replay.specs.Outcomes.{numbers, outcome_bytes};

use crate::Outcomes;
use crate::states::Outcome;
use writer::{Entry, put, put_rows};

impl Entry for Outcome {
    type Form = ();

    ghost numbers = { λ _ o. numbers o };

    ghost width = { λ _. 12 };

    fn put(&self, d: &mut [u8], at: usize, _form: ()) -> usize {
        let backup = put(d, at, u32::from(self.primary));
        let finish = put(d, backup, u32::from(self.backup));
        put(d, finish, self.finish.unwrap_or(0))
    }
}

// Writes the numbers of the first n tasks from the buffer's beginning.
pub fn write_outcomes(o: &Outcomes, n: usize, out: &mut [u8])
    requires { (n ≤ max_tasks) × (12 * n ≤ length out.old) }
    ensures { out.new ≡ outcome_bytes o.now n ++ drop (12 * n) out.old }
{
    put_rows(out, 0, (), n, &o.of);
}
