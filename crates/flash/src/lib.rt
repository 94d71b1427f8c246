// The flash interface: what every flash of the product means, and what each call on it promises.
#![tactic(auto)]

pub mod block;
pub mod checks;
pub mod device;
pub mod geometry;
pub mod making;
pub mod refusal;
