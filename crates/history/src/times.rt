// The run times of a job in one row, as a log is read by.
ghost use Rattle.std.specs.Prelude.{◌≤◌};
ghost use Rattle.reader.specs.Limits.{max_nodes, max_tasks};

use crate::window::Window;

// How many tasks and nodes a job has, and its run times, task by task: looked up in the job itself they would cost a log a tenth of its time.
#[derive(Clone, Copy)]
pub struct RunTimes {
    pub tasks: usize,
    pub nodes: usize,
    pub runs: [u32; Window::CELLS],
    ghost tasks_least: { 1 ≤ tasks },
    ghost tasks_most: { tasks ≤ max_tasks },
    ghost nodes_least: { 1 ≤ nodes },
    ghost nodes_most: { nodes ≤ max_nodes },
}
