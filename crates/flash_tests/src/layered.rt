use chips::plain::PlainChip;
use flash::block::PhysicalBlock;
use flash::device::Flash;
use flash::geometry::Geometry;
use flash::making::MakingFault;
use flash::refusal::Refusal;
use layers::good::GoodBlocks;
use layers::pair::Pair;
use std::process::Abort;

const THREE: Geometry = Geometry {
    blocks: 3,
    pages: 2,
    size: 4,
    endurance: 9,
};

const FIVE: Geometry = Geometry { blocks: 5, ..THREE };

// Checks that page 0 of a block holds these four bytes.
fn holds<F: Flash>(rt: &impl Abort, flash: &F, block: PhysicalBlock, bytes: &[u8; 4]) {
    let mut page = [0u8; 4];
    assert_eq!(rt; flash.read(block, 0, &mut page), Ok(()));
    assert_eq!(rt; &page[0..4], bytes.as_slice());
}

// Block 5 of a pair is block 2 of the right one, and block 4 is block 2 of the left one.
#[test]
fn blocks_of_a_pair(rt: HostRuntime) {
    let mut a = [0u8; 24];
    let mut b = [0u8; 24];
    let mut left = PlainChip::new(&mut a, THREE);
    let mut right = PlainChip::new(&mut b, THREE);
    assert_eq!(rt; left.program(PhysicalBlock(2), 0, b"left"), Ok(()));
    assert_eq!(rt; right.program(PhysicalBlock(2), 0, b"rite"), Ok(()));
    assert_eq!(rt; Pair::fault(&left, &right), Ok(()));
    let pair = Pair::new(left, right);
    assert_eq!(rt; pair.geometry(), Geometry { blocks: 6, ..THREE });
    holds(&rt, &pair, PhysicalBlock(4), b"left");
    holds(&rt, &pair, PhysicalBlock(5), b"rite");
}

// Two flashes that differ, or that have no blocks, make the flash without blocks.
fn no_pair<L: Flash + Drop, R: Flash + Drop>(rt: &impl Abort, left: L, right: R) {
    assert_eq!(rt; Pair::fault(&left, &right), Err(MakingFault::OutOfLimits));
    let mut pair = Pair::new(left, right);
    assert_eq!(rt;
        pair.geometry(),
        Geometry {
            blocks: 0,
            pages: 2,
            size: 4,
            endurance: 1,
        }
    );
    assert_eq!(rt; pair.erase(PhysicalBlock(0)), Err(Refusal::NoSuchBlock));
}

#[test]
fn flashes_that_do_not_fit(rt: HostRuntime) {
    let mut a = [0u8; 24];
    let mut b = [0u8; 40];
    no_pair(
        &rt,
        PlainChip::new(&mut a, THREE),
        PlainChip::new(&mut b, FIVE),
    );
    no_pair(
        &rt,
        PlainChip::new(&mut [], THREE),
        PlainChip::new(&mut [], THREE),
    );
}

// Block 2 of five with 1 and 3 bad is block 4; numbers that come again or do not exist change nothing.
#[test]
fn blocks_that_are_good(rt: HostRuntime) {
    let mut memory = [0u8; 40];
    let mut chip = PlainChip::new(&mut memory, FIVE);
    assert_eq!(rt; chip.program(PhysicalBlock(4), 0, b"four"), Ok(()));
    let bad = [
        PhysicalBlock(1),
        PhysicalBlock(3),
        PhysicalBlock(3),
        PhysicalBlock(5),
        PhysicalBlock(65535),
    ];
    let good = GoodBlocks::new(chip, &bad);
    assert_eq!(rt; good.geometry(), THREE);
    holds(&rt, &good, PhysicalBlock(2), b"four");
}

// With all blocks bad there is none, and the other measures stay.
#[test]
fn all_blocks_bad(rt: HostRuntime) {
    let mut memory = [0u8; 24];
    let chip = PlainChip::new(&mut memory, THREE);
    let bad = [PhysicalBlock(2), PhysicalBlock(1), PhysicalBlock(0)];
    assert_eq!(rt;
        GoodBlocks::new(chip, &bad).geometry(),
        Geometry { blocks: 0, ..THREE }
    );
}
