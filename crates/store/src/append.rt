ghost use Rattle.std.specs.Prelude.{◌≡◌, length, Some, IsOkAnd};
ghost use Rattle.rules.specs.Calls.{row_of};
ghost use Rattle.rules.specs.Moves.{open_block, stored, appended};
ghost use Rattle.store.specs.Appends.{CanStore, CanAppend};
ghost use Rattle.store.specs.State.{state_of};
ghost use Rattle.store.specs.View.{table_of};

use crate::blocks::region_block;
use crate::group::Group;
use crate::maps::Maps;
use flash::device::Flash;
use flash::refusal::Refusal;
use rules::block::LogicalBlock;

impl Maps {
    // The lowest block of the page-mapped region that is neither the reserve nor full.
    pub(crate) fn open_block(&self) -> Option<usize>
        ensures { result ≡ open_block self.now.pages self.now.reserve 0 (table_of self.now.plan self.now.table) }
    {
        let mut rows = self.rows().iter().enumerate();
        rows.position(|(place, row)| place != self.reserve && row.used < self.pages)
    }

    // Programs a page into the next slot of the open block.
    fn store_page<F: Flash>(
        &mut self,
        flash: &mut F,
        block: LogicalBlock,
        page: usize,
        bytes: &[u8],
    ) -> Result<(), Refusal>
        requires { CanStore (state_of self.old (F.card flash.old)) block.0 page (length bytes.now) }
        ensures { IsOkAnd result (λ _. state_of self.new (F.card flash.new) ≡ stored (state_of self.old (F.card flash.old)) block.0 page (Some bytes.now)) }
    {
        let Some(place) = self.open_block() else {
            unreachable!()
        };
        let slot = self.table[place].used;
        flash.program(region_block(self.plan, place), slot, bytes)?;
        // the table is lent first, as in `Maps::forget`
        let table = &mut self.table;
        table[place].append(block, page as u8);
        Ok(())
    }

    // Programs the pages of a group, in ascending order, each into the next slot of the open block.
    pub(crate) fn append_pages<F: Flash>(
        &mut self,
        flash: &mut F,
        group: &Group<'_>,
    ) -> Result<(), Refusal>
        requires { CanAppend (state_of self.old (F.card flash.old)) group.now.block.0 group.now.pages.0 (length group.now.bytes.now) }
        ensures { IsOkAnd result (λ _. state_of self.new (F.card flash.new) ≡ appended (state_of self.old (F.card flash.old)) group.now.block.0 (row_of (F.card flash.old).shape.size group.now.pages.0 group.now.bytes.now) self.old.pages) }
    {
        let size = flash.geometry().size;
        let mut rest = group.bytes;
        for page in 0..self.pages {
            if group.pages.has(page) {
                let (first, later) = rest.split_at(size);
                self.store_page(flash, group.block, page, first)?;
                rest = later;
            }
        }
        Ok(())
    }
}
