ghost use Rattle.std.specs.Prelude.{◌≡◌, ℕ, ◌^◌, ◌<◌, Some, nat_eq};
ghost use Rattle.flash.specs.Meaning.{Card};
ghost use Rattle.rules.specs.Moves.{dropped as dropped_from};
ghost use Rattle.rules.specs.Sets.{has as has_page};
ghost use Rattle.rules.specs.State.{held as held_at};
ghost use Rattle.store.specs.Places.{place_of, Inside};
ghost use Rattle.store.specs.State.{state_of};

use crate::blocks::{logical_block, region_place};
use crate::maps::Maps;
use crate::region::Region;
use flash::block::PhysicalBlock;
use rules::block::LogicalBlock;
use rules::pages::PageSet;

impl Maps {
    // A place of the maps holds its page no more: a data block's set loses the page, a slot is dead.
    pub(crate) fn forget(&mut self, place: (Region, PhysicalBlock, usize))
        requires { Inside place.0 place.1.0 place.2 self.old.plan self.old.pages self.old.table }
        ensures { (c : Card) (d i : ℕ) → held_at (state_of self.old c) d i ≡ Some (place_of place) → state_of self.new c ≡ dropped_from (state_of self.old c) d (nat_eq i) }
    {
        let (region, block, page) = place;
        match region {
            Region::BlockMapped => {
                let number = logical_block(block).0 as usize;
                let valid = self.sets[number];
                self.sets[number] = valid.without(PageSet::EMPTY.with(page));
            }
            Region::PageMapped => {
                let row = region_place(self.plan, block);
                // the table is lent first: no block is lent straight out of maps whose ghost fields cite it
                let table = &mut self.table;
                table[row].mark(page);
            }
        }
    }

    // The pages of a set are held no more.
    pub(crate) fn discard(&mut self, block: LogicalBlock, pages: PageSet)
        requires a_block { block.0 < self.old.plan.data }
        requires fits { pages.0 < 2 ^ self.old.pages }
        ensures { (c : Card) → state_of self.new c ≡ dropped_from (state_of self.old c) block.0 (has_page pages.0) }
    {
        for page in 0..self.pages {
            if pages.has(page) {
                if let Some(place) = self.locate(block, page) {
                    self.forget(place);
                }
            }
        }
    }
}
