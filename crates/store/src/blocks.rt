// The one place where block numbers of one kind become numbers of another kind, which is a rule of the project; by
// functions with names, since a `From` could be called anywhere by `into`.
// The data blocks are the flash blocks 0 and up, the blocks of the page-mapped region the flash blocks after those.
ghost use Rattle.std.specs.Prelude.{◌≡◌, ◌+◌, ◌-◌, ◌<◌, ◌≤◌};

use flash::block::PhysicalBlock;
use rules::block::LogicalBlock;
use rules::plan::Plan;

// The flash block of a data block.
pub(crate) fn data_block(block: LogicalBlock) -> PhysicalBlock
    ensures { result.0 ≡ block.0 }
{
    PhysicalBlock(block.0 as u16)
}

// The data block of which this is the flash block.
pub(crate) fn logical_block(block: PhysicalBlock) -> LogicalBlock
    requires { block.0 < 256 }
    ensures { result.0 ≡ block.0 }
{
    LogicalBlock(block.0 as u8)
}

// The flash block of a block of the page-mapped region.
pub(crate) fn region_block(plan: Plan, place: usize) -> PhysicalBlock
    requires { plan.data + place < 65536 }
    ensures { result.0 ≡ plan.data + place }
{
    PhysicalBlock(plan.data + place as u16)
}

// The block of the page-mapped region of which this is the flash block.
pub(crate) fn region_place(plan: Plan, block: PhysicalBlock) -> usize
    requires { plan.data ≤ block.0 }
    ensures { result ≡ block.0 - plan.data }
{
    (block.0 - plan.data) as usize
}
