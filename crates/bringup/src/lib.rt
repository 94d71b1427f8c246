// The bring-up check of a flash, over the interface alone: program a pattern, read it back, compare.
#![tactic(auto)]

pub mod check;
pub mod pattern;
pub mod probe;
pub mod report;
