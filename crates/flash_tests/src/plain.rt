use chips::plain::PlainChip;
use flash::block::PhysicalBlock;
use flash::device::Flash;
use flash::geometry::Geometry;
use flash::refusal::Refusal;

const SMALL: Geometry = Geometry {
    blocks: 2,
    pages: 2,
    size: 4,
    endurance: 1,
};

// A chip is made of just the bytes of its pages, and gives its memory back with what was programmed.
#[test]
fn memory_is_filled_and_given_back(rt: HostRuntime) {
    let mut memory = [7u8; 18];
    let mut chip = PlainChip::new(&mut memory, SMALL);
    assert_eq!(rt; chip.program(PhysicalBlock(1), 1, b"last"), Ok(()));
    let bytes = chip.release();
    assert!(rt; bytes.len() == 18);
    assert_eq!(rt; &bytes[0..12], [255u8; 12].as_slice());
    assert_eq!(rt; &bytes[12..16], b"last".as_slice());
    assert_eq!(rt; &bytes[16..18], [7u8; 2].as_slice());
}

// Where there is a fault the chip has no blocks, and the memory stays.
#[test]
fn faulty_making_leaves_the_memory(rt: HostRuntime) {
    let mut memory = [7u8; 15];
    let chip = PlainChip::new(&mut memory, SMALL);
    assert_eq!(rt;
        chip.geometry(),
        Geometry {
            blocks: 0,
            pages: 2,
            size: 4,
            endurance: 1,
        }
    );
    assert_eq!(rt; chip.floor(PhysicalBlock(0)), 0);
    let bytes = chip.release();
    assert!(rt; bytes.len() == 15);
    assert_eq!(rt; &bytes[0..15], [7u8; 15].as_slice());
}

// Each refusal of a chip; none of them changes the page that was programmed.
#[test]
fn refusals_by_number(rt: HostRuntime) {
    let mut memory = [0u8; 16];
    let mut page = [0u8; 4];
    let mut chip = PlainChip::new(&mut memory, SMALL);
    assert_eq!(rt; chip.program(PhysicalBlock(0), 0, b"page"), Ok(()));
    assert_eq!(rt;
        chip.program(PhysicalBlock(2), 0, b"page"),
        Err(Refusal::NoSuchBlock)
    );
    assert_eq!(rt;
        chip.program(PhysicalBlock(65535), 0, b"page"),
        Err(Refusal::NoSuchBlock)
    );
    assert_eq!(rt;
        chip.program(PhysicalBlock(0), 2, b"page"),
        Err(Refusal::NoSuchPage)
    );
    assert_eq!(rt;
        chip.program(PhysicalBlock(0), 1, b"pag"),
        Err(Refusal::WrongLength)
    );
    assert_eq!(rt;
        chip.program(PhysicalBlock(0), 0, b"page"),
        Err(Refusal::BelowFloor)
    );
    assert_eq!(rt;
        chip.read(PhysicalBlock(2), 0, &mut page),
        Err(Refusal::NoSuchBlock)
    );
    assert_eq!(rt;
        chip.read(PhysicalBlock(0), usize::MAX, &mut page),
        Err(Refusal::NoSuchPage)
    );
    assert_eq!(rt;
        chip.read(PhysicalBlock(0), 0, &mut []),
        Err(Refusal::WrongLength)
    );
    assert_eq!(rt; chip.read(PhysicalBlock(0), 0, &mut page), Ok(()));
    assert_eq!(rt; &page[0..4], b"page".as_slice());
}

// A block is erased as often as its endurance says, and each erase makes it blank.
#[test]
fn erases_up_to_the_endurance(rt: HostRuntime) {
    let mut memory = [0u8; 16];
    let mut page = [0u8; 4];
    let mut chip = PlainChip::new(&mut memory, SMALL);
    assert_eq!(rt; chip.program(PhysicalBlock(1), 1, b"page"), Ok(()));
    assert_eq!(rt; chip.floor(PhysicalBlock(1)), 2);
    assert_eq!(rt; chip.erase(PhysicalBlock(1)), Ok(()));
    assert_eq!(rt; chip.floor(PhysicalBlock(1)), 0);
    assert_eq!(rt; chip.erase_count(PhysicalBlock(1)), 1);
    assert_eq!(rt; chip.read(PhysicalBlock(1), 1, &mut page), Ok(()));
    assert_eq!(rt; &page[0..4], [255u8; 4].as_slice());
    assert_eq!(rt; chip.erase(PhysicalBlock(1)), Err(Refusal::WornOut));
    assert_eq!(rt; chip.erase(PhysicalBlock(2)), Err(Refusal::NoSuchBlock));
}
