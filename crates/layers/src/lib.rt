// Layers over a flash that are again flashes: two flashes side by side, and one without its bad blocks.
#![tactic(auto)]

pub mod good;
pub mod pair;
pub mod stack;
