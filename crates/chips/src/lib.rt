// Chips that keep their pages in memory lent by the caller.
#![tactic(auto)]

mod header;
pub mod image;
mod layout;
pub mod memory;
pub mod plain;
pub mod table;
