ghost use Rattle.std.specs.Prelude.{◌≡◌, length, IsOkAnd};
ghost use Rattle.rules.specs.Moves.{compacted_at};
ghost use Rattle.store.specs.Moves.{CanCollect};
ghost use Rattle.store.specs.State.{state_of};

use crate::blocks::region_block;
use crate::copy::copy_live;
use crate::maps::Maps;
use crate::slot::RegionBlock;
use flash::device::Flash;
use flash::refusal::Refusal;

impl Maps {
    // Copies the live pages of a block of the page-mapped region to the reserve, and erases the block, which is the
    // reserve then.
    pub(crate) fn compact<F: Flash>(
        &mut self,
        flash: &mut F,
        victim: usize,
        page: &mut [u8],
    ) -> Result<(), Refusal>
        requires { CanCollect (state_of self.old (F.card flash.old)) victim (length page.old) }
        ensures { IsOkAnd result (λ _. state_of self.new (F.card flash.new) ≡ compacted_at (state_of self.old (F.card flash.old)) victim) }
    {
        let reserve = self.reserve;
        let from = region_block(self.plan, victim);
        let to = region_block(self.plan, reserve);
        let block = self.table[victim];
        let copies = copy_live(flash, &block, from, to, page)?;
        flash.erase(from)?;
        self.table[reserve] = copies;
        self.table[victim] = RegionBlock::empty();
        self.reserve = victim;
        Ok(())
    }
}
