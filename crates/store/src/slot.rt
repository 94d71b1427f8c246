ghost use Rattle.std.specs.Prelude.{◌≡◌, ◌≤◌, length};

use rules::block::LogicalBlock;

// What a programmed page of the page-mapped region is: the current copy of a logical page, or dead.
// No `Option` of a page: a slot that is `None` would read as one that is not programmed.
#[derive(Clone, Copy, PartialEq, Eq, Debug)]
pub(crate) enum Slot {
    Live(LogicalBlock, u8),
    Dead,
}

// A block of the page-mapped region: its first `used` slots are programmed. A rule of the project: the page map is a table
// of such records, of which one is lent to a method that marks or appends.
// No `ArrayVec`: the table is an array of records that are copied whole, and an `ArrayVec` is not `Copy`.
#[derive(Clone, Copy)]
pub(crate) struct RegionBlock {
    pub(crate) slots: [Slot; 64],
    pub(crate) used: usize,
    ghost wide: { length slots ≡ 64 },
    ghost short: { used ≤ 64 },
}
