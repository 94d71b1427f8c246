use chips::image::ImageChip;
use flash::block::PhysicalBlock;
use flash::device::Flash;
use flash::geometry::Geometry;
use flash::making::MakingFault;
use flash::refusal::Refusal;

const SMALL: Geometry = Geometry {
    blocks: 2,
    pages: 2,
    size: 4,
    endurance: 1000,
};

// A blank image of the small flash, with one byte of it set to another value.
fn blank_but(place: usize, byte: u8) -> [u8; 24] {
    let mut memory = [0u8; 24];
    let _ = ImageChip::blank(&mut memory, SMALL);
    if place < 24 {
        memory[place] = byte;
    }
    memory
}

// What the check tells of an image, with a fault as its number.
fn tested(memory: &[u8]) -> Result<(), u8> {
    ImageChip::fault(memory, SMALL).map_err(u8::from)
}

// Whether the header of a blank block with just this bit set can stand.
fn bit_stands(bit: u32) -> bool {
    match bit {
        0..=4 => false,
        5..=24 => bit <= 14,
        _ => bit <= 26,
    }
}

// An image is as long as its headers and pages, and one byte less is short.
#[test]
fn length_of_an_image(rt: HostRuntime) {
    let memory = blank_but(0, 0);
    assert_eq!(rt; tested(&memory[0..24]), Ok(()));
    assert_eq!(rt; tested(&memory[0..23]), Err(23));
    assert_eq!(rt; tested(&memory[0..0]), Err(23));
}

// Each bit of both headers set in turn: floors up to 2, counts up to 1,000, and no low bits.
#[test]
fn bits_of_a_header(rt: HostRuntime) {
    for bit in 0..32u32 {
        let byte = 1u8 << (bit % 8);
        let place = 3 - bit as usize / 8;
        let expected = if bit_stands(bit) { Ok(()) } else { Err(24) };
        assert_eq!(rt; tested(&blank_but(place, byte)), expected);
        assert_eq!(rt; tested(&blank_but(12 + place, byte)), expected);
    }
}

// Each byte of the pages changed in turn, with floors of 0.
#[test]
fn bytes_above_the_floor(rt: HostRuntime) {
    for place in 0..8 {
        let first = blank_but(4 + place, 254);
        let second = blank_but(16 + place, 0);
        assert_eq!(rt;
            ImageChip::fault(&first, SMALL),
            Err(MakingFault::NotBlank(PhysicalBlock(0)))
        );
        assert_eq!(rt;
            ImageChip::fault(&second, SMALL),
            Err(MakingFault::NotBlank(PhysicalBlock(1)))
        );
    }
}

// A header fault comes before a page that is not blank, and the lower block before the higher.
#[test]
fn first_fault_is_told(rt: HostRuntime) {
    let mut memory = blank_but(3, 1);
    memory[4] = 0;
    memory[15] = 1;
    assert_eq!(rt;
        ImageChip::fault(&memory, SMALL),
        Err(MakingFault::BadHeader(PhysicalBlock(0)))
    );
    memory[3] = 0;
    assert_eq!(rt;
        ImageChip::fault(&memory, SMALL),
        Err(MakingFault::NotBlank(PhysicalBlock(0)))
    );
    memory[4] = 255;
    assert_eq!(rt;
        ImageChip::fault(&memory, SMALL),
        Err(MakingFault::BadHeader(PhysicalBlock(1)))
    );
}

// What one chip wrote, a second one shows.
#[test]
fn image_taken_up_again(rt: HostRuntime) {
    let mut memory = blank_but(0, 0);
    let mut page = [0u8; 4];
    let mut chip = ImageChip::attach(&mut memory, SMALL);
    assert_eq!(rt; chip.program(PhysicalBlock(1), 1, b"page"), Ok(()));
    assert_eq!(rt; chip.erase(PhysicalBlock(0)), Ok(()));
    let bytes = chip.release();
    let again = ImageChip::attach(bytes, SMALL);
    assert_eq!(rt; again.floor(PhysicalBlock(1)), 2);
    assert_eq!(rt; again.erase_count(PhysicalBlock(0)), 1);
    assert_eq!(rt; again.read(PhysicalBlock(1), 1, &mut page), Ok(()));
    assert_eq!(rt; &page[0..4], b"page".as_slice());
}
