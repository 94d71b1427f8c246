ghost use Rattle.std.specs.Prelude.{◌≡◌};
ghost use Rattle.store.specs.Calls.{state_in, ReadAs};

use crate::refusal::StoreRefusal;
use crate::region::Region;
use crate::store::Store;
use flash::device::Flash;
use rules::block::LogicalBlock;

impl<F: Flash> Store<F> {
    // Copies a page into a buffer that is as long as a page, and tells where it was held.
    pub fn read(
        &self,
        block: LogicalBlock,
        page: usize,
        into: &mut [u8],
    ) -> Result<Region, StoreRefusal>
        ensures { ReadAs result (state_in self.now.maps (F.card self.now.flash)) block.0 page into.old into.new }
    {
        let maps = self.check_page(block, page)?;
        if into.len() != self.flash.geometry().size {
            return Err(StoreRefusal::WrongBuffer);
        }
        let Some((region, held_in, held_at)) = maps.locate(block, page) else {
            return Err(StoreRefusal::NotHeld);
        };
        let Ok(()) = self.flash.read(held_in, held_at, into) else {
            unreachable!()
        };
        Ok(region)
    }
}
