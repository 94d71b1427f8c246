ghost use Rattle.std.specs.Prelude.{◌≡◌, ◌<◌, ◌≤◌, true, Ok};
ghost use Rattle.flash.specs.Meaning.{block_count, floor_at, programmed, Sound};
ghost use Rattle.bringup.specs.Pattern.{pattern};
ghost use Rattle.bringup.specs.Checked.{patterned, outcome_of, checked_as, checked_below, noted_below, summary_below};

use crate::pattern::fill_pattern;
use crate::report::{BlockOutcome, Summary};
use flash::block::PhysicalBlock;
use flash::device::Flash;
use flash::refusal::Refusal;

// Memory for a page as it is written, and as it is found. As long as the longest page, since there is no heap; a card's
// page takes the front.
#[derive(Drop)]
struct Buffers {
    written: [u8; 4096],
    found: [u8; 4096],
}

impl Buffers {
    // Programs the pattern of a page, reads it back, and tells whether it came back as it was written. That the flash has
    // the block is asked here and below: it relates the two, so that neither's type can say it. The caller tells how long a
    // page is: for each page a layer would ask the flashes below it again.
    fn check_page<F: Flash>(
        &mut self,
        flash: &mut F,
        block: PhysicalBlock,
        page: usize,
        size: usize,
    ) -> Result<bool, Refusal>
        requires sound { Sound (F.card flash.old) }
        requires sized { size ≡ (F.card flash.old).shape.size }
        requires inside { block.0 < block_count (F.card flash.old) }
        requires page_inside { page < (F.card flash.old).shape.pages }
        requires above { floor_at (F.card flash.old) block.0 ≤ page }
        ensures same { result ≡ Ok true }
        ensures leaves { let c = F.card flash.old in F.card flash.new ≡ programmed c block.0 page (pattern block.0 page c.shape.size) }
    {
        fill_pattern(block, page, &mut self.written[..size]);
        flash.program(block, page, &self.written[..size])?;
        flash.read(block, page, &mut self.found[..size])?;
        Ok(self.written[..size] == self.found[..size])
    }
}

// Programs the pattern into every page of a blank block, and tells how many pages read back otherwise.
fn pattern_block<F: Flash>(flash: &mut F, block: PhysicalBlock) -> Result<usize, Refusal>
    requires inside { block.0 < block_count (F.card flash.old) }
    requires blank { floor_at (F.card flash.old) block.0 ≡ 0 }
    ensures same { result ≡ Ok 0 }
    ensures leaves { F.card flash.new ≡ patterned (F.card flash.old) block.0 (F.card flash.old).shape.pages }
{
    let mut buffers = Buffers {
        written: [0; 4096],
        found: [0; 4096],
    };
    let geometry = flash.geometry();
    let mut mismatched = 0;
    for page in 0..geometry.pages {
        if !buffers.check_page(flash, block, page, geometry.size)? {
            // counted here, and not by a chain: the check of each page may be refused
            mismatched += 1;
        }
    }
    Ok(mismatched)
}

// What is to be done with a block.
fn outcome<F: Flash>(flash: &F, block: PhysicalBlock) -> BlockOutcome
    ensures { result ≡ outcome_of (F.card flash.now) block.0 }
{
    if flash.floor(block) == 0 {
        return BlockOutcome::Programmed;
    }
    if flash.erase_count(block) < flash.geometry().endurance {
        return BlockOutcome::ErasedFirst;
    }
    BlockOutcome::Worn
}

// Checks one block with this outcome, and tells how many pages read back otherwise.
fn check_block<F: Flash>(
    flash: &mut F,
    block: PhysicalBlock,
    outcome: BlockOutcome,
) -> Result<usize, Refusal>
    requires inside { block.0 < block_count (F.card flash.old) }
    requires due { outcome ≡ outcome_of (F.card flash.old) block.0 }
    ensures same { result ≡ Ok 0 }
    ensures leaves { F.card flash.new ≡ checked_as outcome (F.card flash.old) block.0 }
{
    match outcome {
        BlockOutcome::Worn => Ok(0),
        BlockOutcome::Programmed => pattern_block(flash, block),
        BlockOutcome::ErasedFirst => {
            flash.erase(block)?;
            pattern_block(flash, block)
        }
    }
}

// Checks every block of a flash, in ascending order: a blank one is programmed with the pattern, another is
// erased first or left alone where it may not be erased. The outcome of each block is noted in the table, which has an
// entry for each of the most blocks that there can be, since there is no heap.
pub fn check_flash<F: Flash>(flash: &mut F, outcomes: &mut [BlockOutcome; 256]) -> Summary
    ensures leaves { F.card flash.new ≡ checked_below (block_count (F.card flash.old)) (F.card flash.old) }
    ensures notes { outcomes.new ≡ noted_below (block_count (F.card flash.old)) (F.card flash.old) outcomes.old }
    ensures tells { result ≡ summary_below (block_count (F.card flash.old)) (F.card flash.old) }
{
    let geometry = flash.geometry();
    let mut summary = Summary::default();
    let table = &mut outcomes[..geometry.blocks as usize];
    for (number, noted) in table.iter_mut().enumerate() {
        let block = PhysicalBlock(number as u16);
        let outcome = outcome(flash, block);
        let Ok(mismatched) = check_block(flash, block, outcome) else {
            unreachable!()
        };
        *noted = outcome;
        summary = summary.with(outcome, geometry.pages, mismatched);
    }
    summary
}
