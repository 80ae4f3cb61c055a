// The search for a copy's place: the earliest free start on each node, and the best of the nodes.
ghost use Rattle.std.specs.Prelude.{◌≡◌, suc, ◌≤◌};
ghost use Rattle.copies.specs.Layout.{base_of, spots_from};
ghost use Rattle.planner.specs.Senders.{latest_input};
ghost use Rattle.planner.specs.Search.{found_copy, sooner_of, sweep, fits, best_of, Asked, Searched};

use crate::board::Board;
use crate::inputs::{Ready, ready_on};
use crate::slot::{may_run, nowhere, slot_by, sooner};
use copies::arrival::pick;
use copies::table::Copies;
use reader::job::Task;
use rules::Copy;

// What is asked of one node: a place for a copy of this set that runs so long, beside the entries in its first spots.
#[derive(Clone, Copy)]
pub struct Ask {
    pub node: u32,
    pub count: usize,
    pub set: u32,
    pub run: u32,
}

// What is asked of all nodes for a copy of a task: when the inputs are on each, the least start, the copy's set, and the nodes that it
// may not have.
#[derive(Clone, Copy)]
pub struct Search {
    pub task: Task,
    pub nodes: usize,
    pub ready: Ready,
    pub least: u32,
    pub set: u32,
    pub barred: u32,
}

impl Board {
    // The earliest start on a node from a start on: one sweep over its entries in order of time.
    pub fn first_free(&self, ask: Ask, from: u32) -> u32
        requires { Asked self.now ask from }
        ensures upper_bound { result ≤ latest_input }
        ensures value { result ≡ sweep self.now.copies ask.set ask.run
            (spots_from self.now.layout.order (base_of ask.node) ask.count) from }
    {
        let run = ask.run;
        let base = (ask.node as usize) * Copies::COUNT;
        let mut s = from;
        for p in base..base + ask.count {
            let k = self.layout.entry_at(p);
            let at = self.copies.start[k];
            if s + run <= at {
                return s;
            }
            s = s.max(pick(self.copies.set[k] & ask.set != 0, self.copies.finish[k], 0));
        }
        s
    }

    // The best so far, or the copy on a node from its earliest start on, where that finishes sooner. The node is swept only where a start with nothing
    // in its way would.
    pub fn better(&self, ask: Ask, from: u32, best: Copy) -> Copy
        requires { Asked self.now ask from }
        ensures { result ≡ sooner_of best ask.node (sweep self.now.copies ask.set ask.run
            (spots_from self.now.layout.order (base_of ask.node) ask.count) from) ask.run }
    {
        if best.finish <= from + ask.run {
            return best;
        }
        let s = self.first_free(ask, from);
        sooner(best, ask.node, s, ask.run)
    }

    // The place with the earliest finish, then the lowest node: each node must beat those before it.
    pub fn best_slot(&self, search: Search) -> Option<Copy>
        requires { Searched self.now search }
        ensures { found_copy result ≡ best_of search.task.run (suc search.task.deadline)
            (fits self.now search) search.nodes }
    {
        // the task by itself: where it is read in the search, planning takes a tenth more
        let task = search.task;
        let mut best = nowhere(task.deadline);
        for n in 0..search.nodes {
            let run = task.run[n];
            if may_run(run, search.barred, n as u32) {
                let ask = Ask {
                    node: n as u32,
                    count: self.layout.count[n],
                    set: search.set,
                    run,
                };
                let from = ready_on(search.ready, n as u32).max(search.least);
                best = self.better(ask, from, best);
            }
        }
        slot_by(best, task.deadline)
    }
}
