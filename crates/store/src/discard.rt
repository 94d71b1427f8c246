ghost use Rattle.std.specs.Prelude.{◌≡◌, OnErr};
ghost use Rattle.rules.specs.Calls.{discard as discard_call};
ghost use Rattle.store.specs.Calls.{state_in, state_after, DoneAs};

use crate::refusal::StoreRefusal;
use crate::store::Store;
use flash::device::Flash;
use rules::block::LogicalBlock;
use rules::pages::PageSet;

impl<F: Flash> Store<F> {
    // Drops those of the named pages that are held.
    pub fn discard(&mut self, block: LogicalBlock, pages: PageSet) -> Result<(), StoreRefusal>
        ensures tells { DoneAs result (state_in self.old.maps (F.card self.old.flash)) (discard_call block.0 pages.0) }
        ensures leaves { state_in self.new.maps (F.card self.new.flash) ≡ state_after (state_in self.old.maps (F.card self.old.flash)) (discard_call block.0 pages.0) }
        ensures refused { OnErr result (self.new ≡ self.old) }
    {
        self.check_pages(block, pages)?;
        let Some(maps) = &mut self.maps else {
            unreachable!()
        };
        maps.discard(block, pages);
        Ok(())
    }
}
