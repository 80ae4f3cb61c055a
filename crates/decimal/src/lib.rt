// Base ten: numbers printed into a buffer, and numbers found in a text.
#![tactic(auto)]

pub mod print;
pub mod scan;
