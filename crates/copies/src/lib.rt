// What judge, planner and replay share: the flat table of copies and its layout in order of time, sets as bits, arrival, and the gathering of fault
// sets.
#![tactic(auto)]

pub mod arrival;
pub mod gather;
pub mod layout;
pub mod sets;
pub mod table;
