// One task: its two copies, and what they come to.
ghost use Rattle.std.specs.Prelude.{◌≡◌};
ghost use Rattle.reader.specs.declared.job.Job.{Job};
ghost use Rattle.rules.specs.Copies.{domain};
ghost use Rattle.rules.specs.Replay.{attempt};
ghost use Rattle.replay.specs.States.{state, number_of, PairFits, pair_at, InGroups, pair_row, run_from, outcome};

use reader::job::{Node, Task};
use reader::plan::Place;
use rules::{Copy, Loss, Took};

// The copies of a task, the groups of their nodes, and whether the backup starts late enough for the loss of the primary to be known.
#[derive(Clone, Copy)]
pub struct Pair {
    pub primary: Copy,
    pub backup: Copy,
    pub primary_group: u32,
    pub backup_group: u32,
    pub detected: bool,
}

// What becomes of a copy.
#[derive(Clone, Copy, PartialEq, Eq)]
pub enum State {
    NotStarted,
    Cut,
    Finished,
}

impl From<State> for u32 {
    ghost from_gives = { λ s n. n ≡ number_of s };

    fn from(s: State) -> u32 {
        s as u32
    }
}

// What replay tells of a task: the states of its copies, and the finish of the finished copy, if there is one.
#[derive(Clone, Copy)]
pub struct Outcome {
    pub primary: State,
    pub backup: State,
    pub finish: Option<u32>,
}

// The copies of a task at its place, as they end after the ticks in `took`. `own` is the primary's node, `other` the backup's. Whether the loss
// of the primary is known in time goes by its listed run time.
pub fn pair_of(t: Task, x: Place, took: Took, own: Node, other: Node) -> Pair
    requires { PairFits t x took own.detect }
    ensures { result ≡ pair_at t x took own other }
{
    let p = x.primary_node as usize;
    let finish = x.primary_start + took.primary;
    let listed = x.primary_start + t.run[p];
    Pair {
        primary: Copy {
            node: x.primary_node,
            start: x.primary_start,
            finish,
        },
        backup: Copy {
            node: x.backup_node,
            start: x.backup_start,
            finish: x.backup_start + took.backup,
        },
        primary_group: own.group,
        backup_group: other.group,
        detected: listed + own.detect <= x.backup_start,
    }
}

// What becomes of a copy, on a node of this group, that may start, or may not.
#[tactic(auto, unfolding(rules::specs::Replay::attempt, rules::specs::Replay::started))]
pub fn state_of(loss: Loss, may: bool, c: Copy, group: u32) -> State
    ensures { (job : Job) → domain job c.node ≡ group → result ≡ state (attempt job loss may c) }
{
    if !may {
        return State::NotStarted;
    }
    let Loss::Lost(q, f) = loss else {
        return State::Finished;
    };
    if group != q {
        return State::Finished;
    }
    if f <= c.start {
        return State::NotStarted;
    }
    if f < c.finish {
        return State::Cut;
    }
    State::Finished
}

// What a task comes to, of whose copies it is known from when all that they wait for is there.
pub fn settle(x: Pair, ready: u32, ready_backup: u32, loss: Loss) -> Outcome
    ensures { (job : Job) → InGroups job x → result ≡ outcome (pair_row x) (run_from job loss ready ready_backup x) }
{
    let p = x.primary;
    let b = x.backup;
    let primary = state_of(loss, ready <= p.start, p, x.primary_group);
    if primary == State::Finished {
        return Outcome {
            primary,
            backup: State::NotStarted,
            finish: Some(p.finish),
        };
    }
    let may = x.detected && ready_backup <= b.start;
    let backup = state_of(loss, may, b, x.backup_group);
    let finish = if backup == State::Finished {
        Some(b.finish)
    } else {
        None
    };
    Outcome {
        primary,
        backup,
        finish,
    }
}
