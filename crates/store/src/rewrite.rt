ghost use Rattle.std.specs.Prelude.{◌≡◌, length, IsOkAnd};
ghost use Rattle.rules.specs.Moves.{cleared, clearing, filled, rewritten};
ghost use Rattle.rules.specs.Calls.{row_of};
ghost use Rattle.store.specs.Moves.{CanFill, CanRewrite, row_in};
ghost use Rattle.store.specs.State.{state_of};

use crate::blocks::data_block;
use crate::clear::clear;
use crate::group::Group;
use crate::maps::Maps;
use flash::block::PhysicalBlock;
use flash::device::Flash;
use flash::refusal::Refusal;
use rules::pages::PageSet;

// Erases a block unless it is blank, programs the pages of a set from the area in ascending order, each at its own
// number, and tells the erases.
fn write_block<F: Flash>(
    flash: &mut F,
    block: PhysicalBlock,
    set: PageSet,
    area: &[u8],
) -> Result<usize, Refusal>
    requires { CanFill (F.card flash.old) block.0 (length area.now) }
    ensures { IsOkAnd result (λ erases. (erases ≡ clearing (F.card flash.old) block.0) × (F.card flash.new ≡ filled (cleared (F.card flash.old) block.0) block.0 (row_in set.0 (F.card flash.old).shape.size area.now) (F.card flash.old).shape.pages)) }
{
    let erases = clear(flash, block)?;
    let pages = flash.geometry().pages;
    let size = flash.geometry().size;
    for (page, bytes) in area[..pages * size].chunks_exact(size).enumerate() {
        if set.has(page) {
            flash.program(block, page, bytes)?;
        }
    }
    Ok(erases)
}

impl Maps {
    // Writes a data block anew with the pages of a group and all others that are held, so that no other copy is live,
    // and tells the erases. For a group without pages this is a merge.
    pub(crate) fn rewrite<F: Flash>(
        &mut self,
        flash: &mut F,
        group: &Group<'_>,
        area: &mut [u8],
    ) -> Result<usize, Refusal>
        requires { CanRewrite (state_of self.old (F.card flash.old)) group.now.block.0 group.now.pages.0 (length group.now.bytes.now) (length area.old) }
        ensures { IsOkAnd result (λ erases. (erases ≡ clearing (F.card flash.old) group.now.block.0) × (state_of self.new (F.card flash.new) ≡ rewritten (state_of self.old (F.card flash.old)) group.now.block.0 (row_of (F.card flash.old).shape.size group.now.pages.0 group.now.bytes.now))) }
    {
        let pages = self.gather(flash, group, area)?;
        let erases = write_block(flash, data_block(group.block), pages, area)?;
        self.renew(group.block, pages);
        Ok(erases)
    }
}
