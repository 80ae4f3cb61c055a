// Job and plan files: their types and limits, the refusals, and reading.
#![tactic(auto)]

pub mod job;
pub mod job_file;
pub mod limits;
pub mod number;
pub mod plan;
pub mod plan_file;
pub mod refusal;
