// The tests that a chip makes before it carries a call out, in the order in which they are told.
ghost use Rattle.std.specs.Prelude.{◌≡◌};
ghost use Rattle.flash.specs.Refusals.{refusal_in, why_not_program, why_not_read, why_not_erase};

use crate::block::PhysicalBlock;
use crate::geometry::Geometry;
use crate::refusal::Refusal;

impl Geometry {
    // Whether a page may be read into a buffer of this length.
    pub fn check_read(self, block: PhysicalBlock, page: usize, length: usize) -> Result<(), Refusal>
        ensures { refusal_in result ≡ why_not_read self block.0 page length }
    {
        if block.0 >= self.blocks {
            return Err(Refusal::NoSuchBlock);
        }
        if page >= self.pages {
            return Err(Refusal::NoSuchPage);
        }
        if length != self.size {
            return Err(Refusal::WrongLength);
        }
        Ok(())
    }

    // Whether a page may be programmed with so many bytes in a block with this floor.
    pub fn check_program(
        self,
        floor: usize,
        block: PhysicalBlock,
        page: usize,
        length: usize,
    ) -> Result<(), Refusal>
        ensures { refusal_in result ≡ why_not_program self floor block.0 page length }
    {
        self.check_read(block, page, length)?;
        if page < floor {
            return Err(Refusal::BelowFloor);
        }
        Ok(())
    }

    // Whether a block with this erase count may be erased.
    pub fn check_erase(self, count: u32, block: PhysicalBlock) -> Result<(), Refusal>
        ensures { refusal_in result ≡ why_not_erase self count block.0 }
    {
        if block.0 >= self.blocks {
            return Err(Refusal::NoSuchBlock);
        }
        if count >= self.endurance {
            return Err(Refusal::WornOut);
        }
        Ok(())
    }
}
