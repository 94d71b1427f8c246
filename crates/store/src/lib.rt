// The store: a mapping layer over a flash, with a page-mapped region before the data blocks.
#![tactic(auto)]

mod append;
mod blocks;
mod checks;
mod clear;
mod compact;
mod copy;
mod counts;
pub mod discard;
mod drop;
pub mod flush;
pub mod format;
mod gather;
mod group;
pub mod idle;
mod locate;
mod maps;
pub mod read;
pub mod refusal;
pub mod region;
mod region_block;
mod renew;
pub mod report;
mod rewrite;
mod round;
mod slot;
pub mod slots;
mod start;
pub mod store;
mod tally;
mod targets;
mod wear;
