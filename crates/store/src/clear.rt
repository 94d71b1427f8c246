ghost use Rattle.std.specs.Prelude.{◌≡◌, ◌<◌, ◌≤◌, false, IsOkAnd};
ghost use Rattle.flash.specs.Meaning.{block_count, erase_count_at};
ghost use Rattle.rules.specs.Calls.{near_worn, cleared_below, clearing_below};
ghost use Rattle.rules.specs.Moves.{cleared, clearing};

use flash::block::PhysicalBlock;
use flash::device::Flash;
use flash::refusal::Refusal;

// Erases a block unless it is blank, and tells how many erases that took.
pub(crate) fn clear<F: Flash>(flash: &mut F, block: PhysicalBlock) -> Result<usize, Refusal>
    requires inside { block.0 < block_count (F.card flash.old) }
    requires lasts { erase_count_at (F.card flash.old) block.0 < (F.card flash.old).shape.endurance }
    ensures { IsOkAnd result (λ erases. (erases ≡ clearing (F.card flash.old) block.0) × (F.card flash.new ≡ cleared (F.card flash.old) block.0)) }
{
    if flash.floor(block) == 0 {
        return Ok(0);
    }
    flash.erase(block)?;
    Ok(1)
}

// Erases every block below a number unless it is blank, and tells how many erases that took.
pub(crate) fn clear_below<F: Flash>(flash: &mut F, blocks: u16) -> Result<usize, Refusal>
    requires inside { blocks ≤ block_count (F.card flash.old) }
    requires lasts { near_worn (block_count (F.card flash.old)) (F.card flash.old) ≡ false }
    ensures { IsOkAnd result (λ erases. (erases ≡ clearing_below blocks (F.card flash.old)) × (F.card flash.new ≡ cleared_below blocks (F.card flash.old))) }
{
    let mut erases = 0;
    for number in 0..blocks {
        erases += clear(flash, PhysicalBlock(number))?;
    }
    Ok(erases)
}
