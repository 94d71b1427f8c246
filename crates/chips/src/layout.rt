ghost use Rattle.std.specs.Prelude.{◌≡◌, ◌≤◌, length, IfOk};
ghost use Rattle.std.specs.Result.{result_err};
ghost use Rattle.flash.specs.Refusals.{Outcome, why_not_read};
ghost use Rattle.chips.specs.Layout.{pages_length, span, all_spans, span_start, page_place, page_in, fitting_fault};

use crate::memory::Memory;
use flash::block::PhysicalBlock;
use flash::geometry::Geometry;
use flash::making::MakingFault;
use flash::refusal::Refusal;

// Where the blocks of a chip lie in its memory: one after the other, each a header of so many bytes and then its pages.
#[derive(Clone, Copy)]
pub struct Layout<const HEADER: usize> {
    // the measures of the chip, each so small that every place can be counted
    pub(crate) geometry: Geometry,
    ghost header_high: { HEADER ≤ 4096 },
    ghost blocks_high: { geometry.blocks ≤ 256 },
    ghost pages_high: { geometry.pages ≤ 64 },
    ghost size_high: { geometry.size ≤ 4096 },
}

impl<const HEADER: usize> Layout<HEADER> {
    // The layout of the flash without blocks.
    pub(crate) fn without_blocks() -> Layout<HEADER>
        requires { HEADER ≤ 4096 }
        ensures { result.geometry ≡ Geometry.WITHOUT_BLOCKS }
    {
        Layout {
            geometry: Geometry::WITHOUT_BLOCKS,
        }
    }

    // The layout of these measures, unless one is out of its limits or the bytes are too few for all blocks.
    pub(crate) fn fitting(
        geometry: Geometry,
        available: usize,
    ) -> Result<Layout<HEADER>, MakingFault>
        requires { HEADER ≤ 4096 }
        ensures fault { result_err result ≡ fitting_fault HEADER geometry available }
        ensures measures { IfOk result (λ layout. layout.geometry ≡ geometry) }
    {
        if !geometry.within_limits() {
            return Err(MakingFault::OutOfLimits);
        }
        let layout = Layout { geometry };
        if layout.length() > available {
            return Err(MakingFault::MemoryShort);
        }
        Ok(layout)
    }

    // The bytes of the pages of a block.
    pub(crate) fn pages_length(&self) -> usize
        ensures { result ≡ pages_length self.now.geometry }
    {
        self.geometry.pages * self.geometry.size
    }

    // The bytes of a block.
    pub(crate) fn block_length(&self) -> usize
        ensures { result ≡ span HEADER self.now.geometry }
    {
        HEADER + self.pages_length()
    }

    // The bytes of all blocks.
    pub(crate) fn length(&self) -> usize
        ensures { result ≡ all_spans HEADER self.now.geometry }
    {
        self.geometry.blocks as usize * self.block_length()
    }

    // Where a block begins.
    pub(crate) fn block_start(&self, block: PhysicalBlock) -> usize
        ensures { result ≡ span_start HEADER self.now.geometry block.0 }
    {
        block.0 as usize * self.block_length()
    }

    // Where a page of a block begins.
    pub(crate) fn page_start(&self, block: PhysicalBlock, page: usize) -> usize
        requires { page ≤ 64 }
        ensures { result ≡ page_place HEADER self.now.geometry block.0 page }
    {
        self.block_start(block) + HEADER + page * self.geometry.size
    }

    // Reads a page into a buffer, out of a memory with room for all blocks.
    pub(crate) fn read_page(
        &self,
        memory: &Memory,
        block: PhysicalBlock,
        page: usize,
        into: &mut [u8],
    ) -> Result<(), Refusal>
        requires { all_spans HEADER self.now.geometry ≤ length memory.now.bytes.now }
        ensures { let g = self.now.geometry in
            let found = page_in HEADER g memory.now.bytes.now block.0 page in
            Outcome result (why_not_read g block.0 page (length into.old)) into.old found into.new }
    {
        self.geometry.check_read(block, page, into.len())?;
        memory.get(self.page_start(block, page), into);
        Ok(())
    }
}
