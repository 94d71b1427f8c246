// The rules of the mapping layer: what its calls answer and leave, and what every run of them keeps.
#![tactic(auto)]

pub mod block;
pub mod choice;
pub mod law;
pub mod pages;
pub mod plan;
