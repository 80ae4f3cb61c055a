// Places for a copy.
ghost use Rattle.std.specs.Prelude.{◌≡◌, not, ◌≤◌, ◌<◌, ltb};
ghost use Rattle.reader.specs.Tests.{◌and◌};
ghost use Rattle.reader.specs.Limits.{max_nodes, max_time};
ghost use Rattle.copies.specs.Sets.{has};
ghost use Rattle.planner.specs.Senders.{latest_input};
ghost use Rattle.planner.specs.Search.{found_copy, no_place, sooner_of, place_by};

use copies::sets::holds;
use rules::Copy;

// What a copy that is found must beat, before there is one: it finishes behind the deadline. An Option of a copy, copied for each node, costs more
// than the search.
pub fn nowhere(deadline: u32) -> Copy
    requires { deadline ≤ max_time }
    ensures { result ≡ no_place deadline }
{
    Copy {
        node: 0,
        start: 0,
        finish: deadline + 1,
    }
}

// Whether node n can run the task, and is not barred.
pub fn may_run(run: u32, barred: u32, n: u32) -> bool
    requires { n < max_nodes }
    ensures { result ≡ (ltb 0 run and not (has barred n)) }
{
    run != 0 && !holds(barred, n)
}

// The copy on node n from a start on, where it finishes sooner than the best so far.
pub fn sooner(best: Copy, n: u32, start: u32, run: u32) -> Copy
    requires { (start ≤ latest_input) × (run ≤ max_time) }
    ensures { result ≡ sooner_of best n start run }
{
    if start + run < best.finish {
        return Copy {
            node: n,
            start,
            finish: start + run,
        };
    }
    best
}

// The best, if it finishes by the deadline.
pub fn slot_by(best: Copy, deadline: u32) -> Option<Copy>
    ensures { found_copy result ≡ place_by best deadline }
{
    (best.finish <= deadline).then_some(best)
}
