// What replay knows between two turns of its loop.
ghost use Rattle.std.specs.Prelude.{◌≡◌, ◌+◌, ◌<◌, get_or};
ghost use Rattle.reader.specs.Limits.{max_tasks};
ghost use Rattle.copies.specs.Arrival.{SumFits};
ghost use Rattle.replay.specs.Progress.{started, sent, stored};

use crate::inputs::{sent_at, sent_from};
use crate::states::{Outcome, State};
use copies::arrival::{Outgoing, arrival};
use reader::job::{Job, Link, Node};
use reader::plan::Place;

// Of each task: its outcome, when and from where its result goes out, once it is settled; and from when its copies have the inputs that
// the links looked at so far bring. Numbers in arrays of their own, for the turn that looks at a link.
#[derive(Clone, Copy)]
pub struct Progress {
    pub of: [Outcome; Job::MAX_TASKS],
    pub at: [u32; Job::MAX_TASKS],
    pub node: [u32; Job::MAX_TASKS],
    pub primary: [u32; Job::MAX_TASKS],
    pub backup: [u32; Job::MAX_TASKS],
}

impl Progress {
    pub fn start() -> Progress
        ensures { result ≡ started }
    {
        let none = Outcome {
            primary: State::NotStarted,
            backup: State::NotStarted,
            finish: None,
        };
        Progress {
            of: [none; Job::MAX_TASKS],
            at: [0; Job::MAX_TASKS],
            node: [0; Job::MAX_TASKS],
            primary: [0; Job::MAX_TASKS],
            backup: [0; Job::MAX_TASKS],
        }
    }

    // The result of a settled task goes out by a link: from the node of the finished copy, `sender`, to the copies at place x.
    #[tactic(auto, unfolding(crate::specs::Progress::sent))]
    pub fn send(&mut self, l: Link, sender: Node, x: Place)
        requires { (l.from < max_tasks) × (l.to < max_tasks) × SumFits (get_or self.old.at l.from 0 + sender.send) l.delay }
        ensures { self.new ≡ sent self.old l sender x }
    {
        let i = l.from as usize;
        let t = l.to as usize;
        let node = self.node[i];
        let here = self.at[i];
        let away = here + sender.send + l.delay;
        let result = Outgoing { node, here, away };
        self.primary[t] = self.primary[t].max(arrival(result, x.primary_node));
        self.backup[t] = self.backup[t].max(arrival(result, x.backup_node));
    }

    // Task j, at place x, comes to this.
    #[tactic(auto, unfolding(crate::specs::Progress::stored))]
    pub fn store(&mut self, j: usize, o: Outcome, x: Place)
        requires { j < max_tasks }
        ensures { self.new ≡ stored self.old j o x }
    {
        self.of[j] = o;
        self.at[j] = sent_at(o);
        self.node[j] = sent_from(o, x);
    }
}
