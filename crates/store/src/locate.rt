ghost use Rattle.std.specs.Prelude.{◌≡◌, ◌<◌};
ghost use Rattle.flash.specs.Meaning.{Card};
ghost use Rattle.rules.specs.State.{held as held_at};
ghost use Rattle.store.specs.Places.{found_as, Found};
ghost use Rattle.store.specs.State.{state_of};

use crate::blocks::{data_block, region_block};
use crate::maps::Maps;
use crate::region::Region;
use crate::slot::Slot;
use flash::block::PhysicalBlock;
use rules::block::LogicalBlock;

impl Maps {
    // Where a page of a data block is held: the region, the flash block and its page. A rule of the project: a triple.
    // That the block is one of the plan's is asked wherever one is given: a block knows no plan.
    pub(crate) fn locate(
        &self,
        block: LogicalBlock,
        page: usize,
    ) -> Option<(Region, PhysicalBlock, usize)>
        requires a_block { block.0 < self.now.plan.data }
        requires a_page { page < self.now.pages }
        ensures inside { Found result self.now.plan self.now.pages self.now.table }
        ensures held { (c : Card) → found_as result ≡ held_at (state_of self.now c) block.0 page }
    {
        if self.sets[block.0 as usize].has(page) {
            return Some((Region::BlockMapped, data_block(block), page));
        }
        let wanted = Slot::Live(block, page as u8);
        let mut found = None;
        // a rule of the project: two nested loops, left by the label at the live slot
        'search: for (place, row) in self.rows().iter().enumerate() {
            for (slot, entry) in row.used_slots().iter().enumerate() {
                if *entry == wanted {
                    found = Some((Region::PageMapped, region_block(self.plan, place), slot));
                    break 'search;
                }
            }
        }
        found
    }
}
