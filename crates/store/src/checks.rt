// The tests that a store makes before it carries a call out, in the order in which they are told.
ghost use Rattle.std.specs.Prelude.{◌≡◌, ◌<◌, length, MatchResult};
ghost use Rattle.rules.specs.Calls.{flush, discard, idle};
ghost use Rattle.store.specs.Calls.{state_in, InForce, CheckedAs, block_number, page_number};
ghost use Rattle.store.specs.Numbers.{number_of};
ghost use Rattle.store.specs.State.{state_of};

use crate::group::Group;
use crate::maps::Maps;
use crate::refusal::StoreRefusal;
use crate::store::Store;
use crate::wear::near_worn;
use flash::device::Flash;
use rules::block::LogicalBlock;
use rules::pages::PageSet;

impl<F: Flash> Store<F> {
    // The maps in force, if a block is one of their data blocks.
    fn check_block(&self, block: LogicalBlock) -> Result<&Maps, StoreRefusal>
        ensures { MatchResult result (λ maps. InForce (state_in self.now.maps (F.card self.now.flash)) (state_of maps.now (F.card self.now.flash)) × (block.0 < maps.now.plan.data)) (λ refusal. block_number (state_in self.now.maps (F.card self.now.flash)) block.0 ≡ number_of refusal) }
    {
        let maps = self.ready()?;
        if block.0 as u16 >= maps.plan.data {
            return Err(StoreRefusal::NoSuchBlock);
        }
        Ok(maps)
    }

    // The maps in force, if a page is one of a data block's.
    pub(crate) fn check_page(&self, block: LogicalBlock, page: usize) -> Result<&Maps, StoreRefusal>
        ensures { MatchResult result (λ maps. InForce (state_in self.now.maps (F.card self.now.flash)) (state_of maps.now (F.card self.now.flash)) × (block.0 < maps.now.plan.data) × (page < maps.now.pages)) (λ refusal. page_number (state_in self.now.maps (F.card self.now.flash)) block.0 page ≡ number_of refusal) }
    {
        let maps = self.check_block(block)?;
        if page >= maps.pages {
            return Err(StoreRefusal::NoSuchPage);
        }
        Ok(maps)
    }

    // Whether pages of a block can be named so.
    pub(crate) fn check_pages(
        &self,
        block: LogicalBlock,
        pages: PageSet,
    ) -> Result<(), StoreRefusal>
        ensures { CheckedAs result (state_in self.now.maps (F.card self.now.flash)) (discard block.0 pages.0) }
    {
        let maps = self.check_block(block)?;
        if !pages.within(maps.pages) {
            return Err(StoreRefusal::NoSuchPage);
        }
        if pages.is_empty() {
            return Err(StoreRefusal::EmptySet);
        }
        Ok(())
    }

    // Whether a group can be flushed by way of a work area of this length.
    pub(crate) fn check_flush(&self, group: &Group<'_>, area: usize) -> Result<(), StoreRefusal>
        ensures { CheckedAs result (state_in self.now.maps (F.card self.now.flash)) (flush group.now.block.0 group.now.pages.0 group.now.bytes.now area) }
    {
        self.check_pages(group.block, group.pages)?;
        let size = self.flash.geometry().size;
        if group.bytes.len() != group.pages.len() * size {
            return Err(StoreRefusal::WrongData);
        }
        self.check_idle(area)
    }

    // Whether garbage collection can be made by way of a work area of this length.
    pub(crate) fn check_idle(&self, area: usize) -> Result<(), StoreRefusal>
        ensures { CheckedAs result (state_in self.now.maps (F.card self.now.flash)) (idle area) }
    {
        let maps = self.ready()?;
        let geometry = self.flash.geometry();
        if area < maps.pages * geometry.size {
            return Err(StoreRefusal::ShortArea);
        }
        if near_worn(&self.flash, geometry.blocks) {
            return Err(StoreRefusal::NearWorn);
        }
        Ok(())
    }
}
