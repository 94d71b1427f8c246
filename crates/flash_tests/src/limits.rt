use chips::plain::PlainChip;
use flash::geometry::Geometry;
use flash::making::MakingFault;

// What the check of a plain chip tells in a memory of no bytes, with a fault as its number.
fn tested(blocks: u16, pages: usize, size: usize, endurance: u32) -> Result<(), u8> {
    let geometry = Geometry {
        blocks,
        pages,
        size,
        endurance,
    };
    PlainChip::fault(&[], geometry).map_err(u8::from)
}

// Each measure at its limits and one past them; in no memory only a chip without blocks can be made.
#[test]
fn limits_of_the_measures(rt: HostRuntime) {
    assert_eq!(rt; tested(0, 2, 4, 1), Ok(()));
    assert_eq!(rt; tested(0, 64, 4096, 1_000_000), Ok(()));
    assert_eq!(rt; tested(1, 2, 4, 1), Err(23));
    assert_eq!(rt; tested(256, 64, 4096, 1_000_000), Err(23));
    assert_eq!(rt; tested(257, 64, 4096, 1_000_000), Err(22));
    assert_eq!(rt; tested(65535, 64, 4096, 1_000_000), Err(22));
    assert_eq!(rt; tested(0, 1, 4, 1), Err(22));
    assert_eq!(rt; tested(0, 65, 4, 1), Err(22));
    assert_eq!(rt; tested(0, usize::MAX, 4, 1), Err(22));
    assert_eq!(rt; tested(0, 2, 3, 1), Err(22));
    assert_eq!(rt; tested(0, 2, 4097, 1), Err(22));
    assert_eq!(rt; tested(0, 2, usize::MAX, 1), Err(22));
    assert_eq!(rt; tested(0, 2, 4, 0), Err(22));
    assert_eq!(rt; tested(0, 2, 4, 1_000_001), Err(22));
    assert_eq!(rt; tested(0, 2, 4, u32::MAX), Err(22));
}

// One byte too few is short, and just enough is not.
#[test]
fn memory_to_the_byte(rt: HostRuntime) {
    let geometry = Geometry {
        blocks: 2,
        pages: 2,
        size: 4,
        endurance: 9,
    };
    assert_eq!(rt;
        PlainChip::fault(&[0; 15], geometry),
        Err(MakingFault::MemoryShort)
    );
    assert_eq!(rt; PlainChip::fault(&[0; 16], geometry), Ok(()));
    assert_eq!(rt; PlainChip::fault(&[0; 17], geometry), Ok(()));
}
