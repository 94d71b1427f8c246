ghost use Rattle.std.specs.Prelude.{◌≡◌, ◌≤◌, length};
ghost use Rattle.std.specs.Result.{result_err};
ghost use Rattle.flash.specs.Meaning.{Sound, floor_at, erase_count_at};
ghost use Rattle.chips.specs.Plain.{plain_length, plain_card, plain_fault, made_card, made_memory};

use crate::layout::Layout;
use crate::memory::Memory;
use crate::table::Entry;
use flash::block::PhysicalBlock;
use flash::device::Flash;
use flash::geometry::Geometry;
use flash::making::MakingFault;
use flash::refusal::Refusal;

// The pages of a plain chip lie one after the other, with nothing between them.
type PlainLayout = Layout<0>;

// A chip that keeps its pages in the caller's memory, one after the other, and the rest in a table.
#[derive(Drop)]
pub struct PlainChip<'a> {
    memory: Memory<'a>,
    // an entry for each of the most blocks that there can be, since a card has no heap
    table: [Entry; 256],
    geometry: Geometry,
    ghost blocks_high: { geometry.blocks ≤ 256 },
    ghost pages_high: { geometry.pages ≤ 64 },
    ghost size_high: { geometry.size ≤ 4096 },
    ghost entries: { length table ≡ 256 },
    ghost room: { plain_length geometry ≤ length memory.bytes.now },
    ghost whole: { ∥ Sound (plain_card geometry memory.bytes.now table) ∥₁ },
}

impl<'a> PlainChip<'a> {
    // What keeps a chip of these measures from being made in this memory, if anything does.
    pub fn fault(memory: &[u8], geometry: Geometry) -> Result<(), MakingFault>
        ensures { result_err result ≡ plain_fault geometry (length memory.now) }
    {
        PlainLayout::fitting(geometry, memory.len())?;
        Ok(())
    }

    // A blank chip in the caller's memory; where there is a fault, the flash without blocks.
    pub fn new(memory: &'a mut [u8], geometry: Geometry) -> PlainChip<'a>
        ensures shows { plain_card result.geometry result.memory.bytes.now result.table
            ≡ made_card (plain_fault geometry (length memory.old)) geometry }
        ensures holds { result.memory.bytes.now
            ≡ made_memory (plain_fault geometry (length memory.old)) geometry memory.old }
    {
        let available = memory.len();
        let mut memory = Memory { bytes: memory };
        let table = [Entry::default(); 256];
        let Ok(layout) = PlainLayout::fitting(geometry, available) else {
            return PlainChip {
                memory,
                table,
                geometry: Geometry::WITHOUT_BLOCKS,
            };
        };
        let length = layout.length();
        memory.fill(0, length, 255);
        PlainChip {
            memory,
            table,
            geometry: layout.geometry,
        }
    }

    // Gives the memory back, as the chip leaves it.
    pub fn release(self) -> &'a mut [u8]
        ensures { result.now ≡ self.entry.memory.bytes.now }
    {
        let PlainChip {
            memory,
            table: _,
            geometry: _,
        } = self;
        memory.into_bytes()
    }

    // What the table has of a block; where there is no such block, the entry of one that was never used.
    fn entry(&self, block: PhysicalBlock) -> Entry
        ensures floor { result.floor
            ≡ floor_at (plain_card self.now.geometry self.now.memory.bytes.now self.now.table) block.0 }
        ensures erases { result.erases
            ≡ erase_count_at (plain_card self.now.geometry self.now.memory.bytes.now self.now.table) block.0 }
    {
        if block.0 < self.geometry.blocks {
            self.table[block.0 as usize]
        } else {
            Entry::default()
        }
    }
}

impl<'a> Flash for PlainChip<'a> {
    ghost card = { λ s. plain_card s.geometry s.memory.bytes.now s.table };

    fn geometry(&self) -> Geometry {
        self.geometry
    }

    fn floor(&self, block: PhysicalBlock) -> usize {
        self.entry(block).floor
    }

    fn erase_count(&self, block: PhysicalBlock) -> u32 {
        self.entry(block).erases
    }

    fn program(&mut self, block: PhysicalBlock, page: usize, bytes: &[u8]) -> Result<(), Refusal> {
        let layout = PlainLayout {
            geometry: self.geometry,
        };
        let old = self.entry(block);
        self.geometry
            .check_program(old.floor, block, page, bytes.len())?;
        self.memory.put(layout.page_start(block, page), bytes);
        self.table[block.0 as usize] = Entry {
            floor: page + 1,
            ..old
        };
        Ok(())
    }

    fn read(&self, block: PhysicalBlock, page: usize, into: &mut [u8]) -> Result<(), Refusal> {
        let layout = PlainLayout {
            geometry: self.geometry,
        };
        layout.read_page(&self.memory, block, page, into)
    }

    fn erase(&mut self, block: PhysicalBlock) -> Result<(), Refusal> {
        let layout = PlainLayout {
            geometry: self.geometry,
        };
        let old = self.entry(block);
        self.geometry.check_erase(old.erases, block)?;
        let pages = layout.block_start(block);
        self.memory.fill(pages, layout.pages_length(), 255);
        self.table[block.0 as usize] = Entry {
            floor: 0,
            erases: old.erases + 1,
        };
        Ok(())
    }
}
