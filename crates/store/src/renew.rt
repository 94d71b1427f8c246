ghost use Rattle.std.specs.Prelude.{◌≡◌, ◌^◌, ◌<◌};
ghost use Rattle.flash.specs.Meaning.{Card};
ghost use Rattle.store.specs.Changes.{retired_in, renewed_in};
ghost use Rattle.store.specs.State.{state_of};

use crate::maps::Maps;
use rules::block::LogicalBlock;
use rules::pages::PageSet;

impl Maps {
    // No slot of a data block is live any more. The blocks of the region are counted off, as the slots of each.
    pub(crate) fn retire(&mut self, block: LogicalBlock)
        ensures { (c : Card) → state_of self.new c ≡ retired_in (state_of self.old c) block.0 }
    {
        let mut left = self.plan.region;
        for row in self.table.iter_mut() {
            if left == 0 {
                break;
            }
            left -= 1;
            row.retire(block);
        }
    }

    // A data block was written anew with these pages.
    pub(crate) fn renew(&mut self, block: LogicalBlock, pages: PageSet)
        requires a_block { block.0 < self.old.plan.data }
        requires fits { pages.0 < 2 ^ self.old.pages }
        ensures { (c : Card) → state_of self.new c ≡ renewed_in (state_of self.old c) block.0 pages.0 }
    {
        self.retire(block);
        self.sets[block.0 as usize] = pages;
    }
}
