// Work lists: the bytes by which a mill's controller talks to a card, and the answers that it gets.
#![tactic(auto)]

pub mod answer;
mod carry;
pub mod ended;
pub mod fault;
mod head;
pub mod kind;
pub mod laws;
pub mod reader;
pub mod record;
pub mod run;
mod step;
