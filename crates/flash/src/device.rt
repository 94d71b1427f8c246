ghost use Rattle.std.specs.Prelude.{◌≡◌, length};
ghost use Rattle.flash.specs.Meaning.{Card, geometry_of, floor_at, erase_count_at, page_at, programmed, erased, Sound};
ghost use Rattle.flash.specs.Refusals.{Outcome, program_refusal, read_refusal, erase_refusal};

use crate::block::PhysicalBlock;
use crate::geometry::Geometry;
use crate::refusal::Refusal;

// A flash, by its meaning: a card of blocks, each with its pages, its floor and its erase count.
// Whatever implements this trait is held to what the calls promise of that card.
pub trait Flash {
    // what the flash means
    ghost card: { Self → Card };

    // The measures of the flash.
    fn geometry(&self) -> Geometry
        ensures is { result ≡ geometry_of (card self.now) }
        ensures sound { Sound (card self.now) };

    // The floor of a block: pages below it may no longer be programmed. 0 for a block that does not exist.
    fn floor(&self, block: PhysicalBlock) -> usize
        ensures { result ≡ floor_at (card self.now) block.0 };

    // How often a block was erased. 0 for a block that does not exist.
    fn erase_count(&self, block: PhysicalBlock) -> u32
        ensures { result ≡ erase_count_at (card self.now) block.0 };

    // Writes a page that is not below the floor, and raises the floor just above it.
    fn program(&mut self, block: PhysicalBlock, page: usize, bytes: &[u8]) -> Result<(), Refusal>
        ensures { Outcome result (program_refusal (card self.old) block.0 page (length bytes.now)) (card self.old) (programmed (card self.old) block.0 page bytes.now) (card self.new) };

    // Copies a page into a buffer that is as long as a page.
    fn read(&self, block: PhysicalBlock, page: usize, into: &mut [u8]) -> Result<(), Refusal>
        ensures { Outcome result (read_refusal (card self.now) block.0 page (length into.old)) into.old (page_at (card self.now) block.0 page) into.new };

    // Sets every byte of a block to 255 and its floor to 0, and counts the erase.
    fn erase(&mut self, block: PhysicalBlock) -> Result<(), Refusal>
        ensures { Outcome result (erase_refusal (card self.old) block.0) (card self.old) (erased (card self.old) block.0) (card self.new) };
}
