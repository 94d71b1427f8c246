ghost use Rattle.std.specs.Prelude.{◌≡◌, ◌≤◌, length};
ghost use Rattle.std.specs.Option.{ok_or};
ghost use Rattle.flash.specs.declared.refusal.Refusal.TheVariants.{NoSuchBlock};
ghost use Rattle.flash.specs.Meaning.{block_count};
ghost use Rattle.layers.specs.Good.{bad_table, good_numbers, good_block, good_card};

use flash::block::PhysicalBlock;
use flash::device::Flash;
use flash::geometry::Geometry;
use flash::refusal::Refusal;

// A flash without its bad blocks: the good ones in the same order, counted from 0.
#[derive(Drop)]
pub struct GoodBlocks<F: Flash> {
    flash: F,
    // whether the block of this number is bad, for each of the most blocks that there can be: a card has no heap
    bad: [bool; 256],
}

impl<F: Flash> GoodBlocks<F> {
    // Leaves the bad blocks of a flash out. A number that comes again, or that no block has, changes nothing.
    pub fn new(flash: F, bad: &[PhysicalBlock]) -> GoodBlocks<F>
        ensures over { result.flash ≡ flash }
        ensures without { result.bad ≡ bad_table bad.now }
        ensures means { good_card result.bad (F.card result.flash) ≡ good_card (bad_table bad.now) (F.card flash) }
    {
        let mut marks = [false; 256];
        for block in bad {
            // A rule of the project: a `for` over the given numbers, in the table. By index: of a slice that `get_mut` lent
            // an element of, a proof knows no element afterwards.
            let number = block.0 as usize;
            if number < marks.len() {
                marks[number] = true;
            }
        }
        GoodBlocks { flash, bad: marks }
    }

    // Gives the flash back.
    pub fn release(self) -> F
        ensures { result ≡ self.flash }
    {
        let GoodBlocks { flash, bad: _ } = self;
        flash
    }

    // The block below that a block stands for, if there is one.
    fn below(&self, block: PhysicalBlock) -> Result<PhysicalBlock, Refusal>
        ensures { result ≡ ok_or (good_block self.now.bad (block_count (F.card self.now.flash)) block.0) NoSuchBlock }
    {
        let marks = &self.bad[..self.flash.geometry().blocks as usize];
        // so many good blocks are still ahead: `filter` and `nth` take half again as many steps for each mark
        let mut ahead = block.0;
        for (number, bad) in marks.iter().enumerate() {
            if *bad {
                continue;
            }
            if ahead == 0 {
                return Ok(PhysicalBlock(number as u16));
            }
            ahead -= 1;
        }
        Err(Refusal::NoSuchBlock)
    }
}

impl<F: Flash> Flash for GoodBlocks<F> {
    ghost card = { λ s. good_card s.bad (F.card s.flash) };

    fn geometry(&self) -> Geometry {
        let all = self.flash.geometry();
        let marks = &self.bad[..all.blocks as usize];
        // a sum, which is made many marks at a time; a filter and its count are not
        let blocks = marks.iter().map(|bad| u16::from(!*bad)).sum();
        Geometry { blocks, ..all }
    }

    fn floor(&self, block: PhysicalBlock) -> usize {
        self.below(block).map_or(0, |below| self.flash.floor(below))
    }

    fn erase_count(&self, block: PhysicalBlock) -> u32 {
        self.below(block)
            .map_or(0, |below| self.flash.erase_count(below))
    }

    fn program(&mut self, block: PhysicalBlock, page: usize, bytes: &[u8]) -> Result<(), Refusal> {
        let below = self.below(block)?;
        self.flash.program(below, page, bytes)
    }

    fn read(&self, block: PhysicalBlock, page: usize, into: &mut [u8]) -> Result<(), Refusal> {
        let below = self.below(block)?;
        self.flash.read(below, page, into)
    }

    fn erase(&mut self, block: PhysicalBlock) -> Result<(), Refusal> {
        let below = self.below(block)?;
        self.flash.erase(below)
    }
}
