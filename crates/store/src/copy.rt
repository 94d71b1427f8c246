ghost use Rattle.std.specs.Prelude.{◌≡◌, length, IsOkAnd};
ghost use Rattle.rules.specs.Moves.{kept, copied};
ghost use Rattle.store.specs.Moves.{CanCopy};
ghost use Rattle.store.specs.View.{slots_of};

use crate::slot::{RegionBlock, Slot};
use flash::block::PhysicalBlock;
use flash::device::Flash;
use flash::refusal::Refusal;

// Programs the live pages of a block of the page-mapped region into a blank one, in slot order, and tells its slots.
pub(crate) fn copy_live<F: Flash>(
    flash: &mut F,
    block: &RegionBlock,
    from: PhysicalBlock,
    to: PhysicalBlock,
    page: &mut [u8],
) -> Result<RegionBlock, Refusal>
    requires { CanCopy (F.card flash.old) block.now.used from.0 to.0 (length page.old) }
    ensures { IsOkAnd result (λ k. (slots_of k ≡ kept (slots_of block.now)) × (F.card flash.new ≡ copied from.0 to.0 (slots_of block.now) 0 0 (F.card flash.old))) }
{
    let mut copies = RegionBlock::empty();
    for (slot, entry) in block.used_slots().iter().enumerate() {
        if let Slot::Live(owner, number) = *entry {
            flash.read(from, slot, page)?;
            flash.program(to, copies.used, page)?;
            copies.append(owner, number);
        }
    }
    Ok(copies)
}
