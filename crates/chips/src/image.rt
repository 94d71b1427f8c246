ghost use Rattle.std.specs.Prelude.{◌≡◌, ◌≤◌, [], ◌∷◌, length, IfOk, OnOk, IsNone};
ghost use Rattle.std.specs.Result.{result_err};
ghost use borrow.Rule.Slice.PartMut.{put_mid};
ghost use Rattle.flash.specs.Meaning.{blank_card, geometry_of, floor_at, erase_count_at};
ghost use Rattle.chips.specs.Image.{HeaderOf, header_bytes, block_length, image_length, start_of, HasBlock, header_at, image_card, all_blank, room_fault, block_fault, image_fault, ImageOf, attached_card, fresh_block, blanked_memory, HeadersReturn};

use crate::header::{HEADER_LENGTH, Header};
use crate::layout::Layout;
use crate::memory::Memory;
use flash::block::PhysicalBlock;
use flash::device::Flash;
use flash::geometry::Geometry;
use flash::making::MakingFault;
use flash::refusal::Refusal;

// Each block of an image is a header and then its pages.
type ImageLayout = Layout<HEADER_LENGTH>;

// What is written into a header is read from it again.
pub fn headers_return()
    ensures law { HeadersReturn }
    ensures example { header_bytes 4 1000 ≡ 0x08 ∷ 0x00 ∷ 0x7D ∷ 0x00 ∷ [] }
{}

// Whether all bytes are 255.
fn all_blank(bytes: &[u8]) -> bool
    ensures { result ≡ all_blank bytes.now }
{
    bytes.iter().all(|byte| *byte == 255)
}

impl ImageLayout {
    // The header of a block. It is given the whole memory, as the two below are: each caller would have to cut the bytes of
    // the block out of it, by the same arithmetic.
    fn header_at(&self, memory: &[u8], block: PhysicalBlock) -> Header
        requires { HasBlock self.now.geometry memory.now block.0 }
        ensures { HeaderOf (header_at self.now.geometry memory.now block.0) result.floor result.erases result.spare }
    {
        let bytes = &memory[self.block_start(block)..];
        Header::from(*bytes.first_chunk().unwrap())
    }

    // What keeps a block from being taken up, if anything does.
    fn block_fault(&self, memory: &[u8], block: PhysicalBlock) -> Result<(), MakingFault>
        requires { HasBlock self.now.geometry memory.now block.0 }
        ensures { result_err result ≡ block_fault self.now.geometry memory.now block.0 }
    {
        let header = self.header_at(memory, block);
        if !header.is_good(self.geometry) {
            return Err(MakingFault::BadHeader(block));
        }
        let start = self.page_start(block, header.floor);
        let end = self.page_start(block, self.geometry.pages);
        if !all_blank(&memory[start..end]) {
            return Err(MakingFault::NotBlank(block));
        }
        Ok(())
    }

    // The layout of the image in a memory, or what keeps it from being taken up.
    fn of_image(memory: &[u8], geometry: Geometry) -> Result<ImageLayout, MakingFault>
        ensures fault { result_err result ≡ image_fault geometry memory.now }
        ensures measures { IfOk result (λ layout. layout.geometry ≡ geometry) }
    {
        let layout = ImageLayout::fitting(geometry, memory.len())?;
        for number in 0..layout.geometry.blocks {
            layout.block_fault(memory, PhysicalBlock(number))?;
        }
        Ok(layout)
    }

    // Writes a block that was never used: a header of zeros, and blank pages.
    fn blank_block(&self, memory: &mut [u8], block: PhysicalBlock)
        requires { HasBlock self.now.geometry memory.old block.0 }
        ensures { memory.new
            ≡ put_mid (start_of self.now.geometry block.0) (block_length self.now.geometry) memory.old
            (fresh_block self.now.geometry) }
    {
        let header = self.block_start(block);
        let pages = self.page_start(block, 0);
        let end = pages + self.pages_length();
        memory[header..pages].fill(0);
        memory[pages..end].fill(255);
    }
}

// A chip that keeps all it has in the caller's memory: each block is a header and then its pages.
#[derive(Drop)]
pub struct ImageChip<'a> {
    memory: Memory<'a>,
    geometry: Geometry,
    ghost blocks_high: { geometry.blocks ≤ 256 },
    ghost pages_high: { geometry.pages ≤ 64 },
    ghost size_high: { geometry.size ≤ 4096 },
    ghost room: { image_length geometry ≤ length memory.bytes.now },
    ghost whole: { IsNone (image_fault geometry memory.bytes.now) },
}

impl<'a> ImageChip<'a> {
    // What keeps a memory from being taken up as an image of these measures, if anything does.
    pub fn fault(memory: &[u8], geometry: Geometry) -> Result<(), MakingFault>
        ensures { result_err result ≡ image_fault geometry memory.now }
    {
        ImageLayout::of_image(memory, geometry)?;
        Ok(())
    }

    // Turns a memory into the image of a flash that was never used, unless there is no room for one.
    pub fn blank(memory: &mut [u8], geometry: Geometry) -> Result<(), MakingFault>
        ensures is { result_err result ≡ room_fault geometry (length memory.old) }
        ensures holds { memory.new ≡ blanked_memory (result_err result) geometry memory.old }
        ensures fresh { OnOk result (ImageOf geometry memory.new (blank_card geometry)) }
    {
        let layout = ImageLayout::fitting(geometry, memory.len())?;
        for block in 0..layout.geometry.blocks {
            layout.blank_block(memory, PhysicalBlock(block));
        }
        Ok(())
    }

    // Takes an image up as it is; where there is a fault, the flash without blocks.
    pub fn attach(memory: &'a mut [u8], geometry: Geometry) -> ImageChip<'a>
        ensures shows { image_card result.geometry result.memory.bytes.now
            ≡ attached_card (image_fault geometry memory.old) geometry memory.old }
        ensures holds { result.memory.bytes.now ≡ memory.old }
    {
        let none = ImageLayout::without_blocks();
        let layout = ImageLayout::of_image(memory, geometry).unwrap_or(none);
        ImageChip {
            memory: Memory { bytes: memory },
            geometry: layout.geometry,
        }
    }

    // Gives the memory back, as an image that can be taken up again and then shows the same flash.
    pub fn release(self) -> &'a mut [u8]
        ensures holds { result.now ≡ self.entry.memory.bytes.now }
        ensures again { ImageOf (geometry_of (image_card self.entry.geometry self.entry.memory.bytes.now))
            result.now (image_card self.entry.geometry self.entry.memory.bytes.now) }
    {
        let ImageChip {
            memory,
            geometry: _,
        } = self;
        memory.into_bytes()
    }

    // The header of a block; where there is no such block, that of one that was never used.
    fn header(&self, block: PhysicalBlock) -> Header
        ensures floor { result.floor
            ≡ floor_at (image_card self.now.geometry self.now.memory.bytes.now) block.0 }
        ensures erases { result.erases
            ≡ erase_count_at (image_card self.now.geometry self.now.memory.bytes.now) block.0 }
    {
        if block.0 < self.geometry.blocks {
            let layout = ImageLayout {
                geometry: self.geometry,
            };
            layout.header_at(self.memory.bytes(), block)
        } else {
            Header {
                floor: 0,
                erases: 0,
                spare: 0,
            }
        }
    }
}

impl<'a> Flash for ImageChip<'a> {
    ghost card = { λ s. image_card s.geometry s.memory.bytes.now };

    fn geometry(&self) -> Geometry {
        self.geometry
    }

    fn floor(&self, block: PhysicalBlock) -> usize {
        self.header(block).floor
    }

    fn erase_count(&self, block: PhysicalBlock) -> u32 {
        self.header(block).erases
    }

    fn program(&mut self, block: PhysicalBlock, page: usize, bytes: &[u8]) -> Result<(), Refusal> {
        let layout = ImageLayout {
            geometry: self.geometry,
        };
        let old = self.header(block);
        self.geometry
            .check_program(old.floor, block, page, bytes.len())?;
        let header = Header {
            floor: page + 1,
            erases: old.erases,
            spare: 0,
        };
        self.memory.put(layout.page_start(block, page), bytes);
        self.memory.put(
            layout.block_start(block),
            &<[u8; HEADER_LENGTH]>::from(header),
        );
        Ok(())
    }

    fn read(&self, block: PhysicalBlock, page: usize, into: &mut [u8]) -> Result<(), Refusal> {
        let layout = ImageLayout {
            geometry: self.geometry,
        };
        layout.read_page(&self.memory, block, page, into)
    }

    fn erase(&mut self, block: PhysicalBlock) -> Result<(), Refusal> {
        let layout = ImageLayout {
            geometry: self.geometry,
        };
        let old = self.header(block);
        self.geometry.check_erase(old.erases, block)?;
        let header = Header {
            floor: 0,
            erases: old.erases + 1,
            spare: 0,
        };
        let pages = layout.page_start(block, 0);
        self.memory.fill(pages, layout.pages_length(), 255);
        self.memory.put(
            layout.block_start(block),
            &<[u8; HEADER_LENGTH]>::from(header),
        );
        Ok(())
    }
}
