// The trial card: a small card on which a work list can be tried, and the lines that it prints.
#![tactic(auto)]

mod card;
mod lines;
pub mod text;
