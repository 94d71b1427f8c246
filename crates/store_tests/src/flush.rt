use crate::card::{Bench, CARD, TRIAL, told};
use chips::plain::PlainChip;
use flash::device::Flash;
use rules::block::LogicalBlock;
use rules::pages::PageSet;
use rules::plan::Plan;
use std::process::Abort;
use store::refusal::StoreRefusal;
use store::region::Region;

// The fifth flush into a full region takes a merge of block 0 and a compaction.
#[test]
fn flush_into_a_full_region(rt: HostRuntime) {
    let mut memory = [0u8; 80];
    let mut bench = Bench::over(&rt, PlainChip::new(&mut memory, CARD));
    bench.fill(TRIAL);
    bench.flushes(0, 1, &[136; 4], told(Region::PageMapped, 1, 1, 1));
    bench.reads(0, 0, Region::PageMapped, 136);
    bench.reads(0, 1, Region::BlockMapped, 17);
    bench.reads(0, 3, Region::BlockMapped, 51);
    bench.reads(1, 2, Region::PageMapped, 102);
    assert_eq!(rt;
        bench.store.discard(LogicalBlock(0), PageSet::EMPTY),
        Err(StoreRefusal::EmptySet)
    );
}

// At threshold 2 a group of two pages is page-mapped. A group of three goes to the data block, and takes along the
// page that only the page-mapped region has; so does a full group, whose pages are in both regions by then.
#[test]
fn groups_at_the_threshold(rt: HostRuntime) {
    let mut memory = [0u8; 80];
    let mut bench = Bench::over(&rt, PlainChip::new(&mut memory, CARD));
    bench.formats(TRIAL);
    bench.flushes(
        1,
        9,
        &[1, 1, 1, 1, 2, 2, 2, 2],
        told(Region::PageMapped, 0, 0, 0),
    );
    bench.flushes(1, 7, &[3; 12], told(Region::BlockMapped, 0, 0, 0));
    bench.reads(1, 0, Region::BlockMapped, 3);
    bench.reads(1, 3, Region::BlockMapped, 2);
    bench.lacks(0, 0);
    bench.flushes(1, 2, &[4; 4], told(Region::PageMapped, 0, 0, 0));
    bench.reads(1, 1, Region::PageMapped, 4);
    bench.flushes(1, 15, &[5; 16], told(Region::BlockMapped, 1, 0, 0));
    bench.reads(1, 1, Region::BlockMapped, 5);
    bench.reads(1, 3, Region::BlockMapped, 5);
}

// At threshold 0 a single page goes to its data block.
#[test]
fn threshold_of_no_pages(rt: HostRuntime) {
    let mut memory = [0u8; 80];
    let mut bench = Bench::over(&rt, PlainChip::new(&mut memory, CARD));
    bench.formats(Plan {
        threshold: 0,
        ..TRIAL
    });
    bench.flushes(0, 4, &[8; 4], told(Region::BlockMapped, 0, 0, 0));
    bench.flushes(0, 1, &[9; 4], told(Region::BlockMapped, 1, 0, 0));
    bench.reads(0, 0, Region::BlockMapped, 9);
    bench.reads(0, 2, Region::BlockMapped, 8);
}

// The later of two copies of a page counts, and after a discard no older one comes back.
#[test]
fn a_page_flushed_twice(rt: HostRuntime) {
    let mut memory = [0u8; 80];
    let mut bench = Bench::over(&rt, PlainChip::new(&mut memory, CARD));
    bench.formats(TRIAL);
    bench.flushes(0, 1, &[1; 4], told(Region::PageMapped, 0, 0, 0));
    bench.flushes(0, 1, &[2; 4], told(Region::PageMapped, 0, 0, 0));
    bench.reads(0, 0, Region::PageMapped, 2);
    assert_eq!(rt; bench.store.discard(LogicalBlock(0), PageSet(1)), Ok(()));
    bench.lacks(0, 0);
}

// A flush that gathers a block in the area leaves a block's bytes of it zero, and the byte after them as it was.
#[test]
fn area_after_a_flush(rt: HostRuntime) {
    let mut memory = [0u8; 80];
    let mut bench = Bench::over(&rt, PlainChip::new(&mut memory, CARD));
    let mut area = [7u8; 17];
    bench.formats(TRIAL);
    assert_eq!(rt;
        bench
            .store
            .flush(LogicalBlock(0), PageSet(14), &[9; 12], &mut area),
        Ok(told(Region::BlockMapped, 0, 0, 0))
    );
    assert_eq!(rt; &area[0..16], [0u8; 16].as_slice());
    assert_eq!(rt; area[16], 7);
}

impl<'a, A: Abort, F: Flash> Bench<'a, A, F> {
    // Checks the number that a flush by way of a short area is refused with, and that the area stays.
    fn refuses(&mut self, block: u8, set: u64, bytes: &[u8], number: u8) {
        let mut area = [7u8; 15];
        let answer = self
            .store
            .flush(LogicalBlock(block), PageSet(set), bytes, &mut area);
        assert_eq!(self.rt; answer.map_err(u8::from), Err(number));
        assert_eq!(self.rt; &area[0..15], [7u8; 15].as_slice());
    }
}

// Each refusal of a flush, the first one told where there are more.
#[test]
fn refusals_of_a_flush(rt: HostRuntime) {
    let mut memory = [0u8; 80];
    let mut bench = Bench::over(&rt, PlainChip::new(&mut memory, CARD));
    bench.formats(TRIAL);
    bench.refuses(2, 16, &[], 7);
    bench.refuses(1, 16, &[], 8);
    bench.refuses(1, 0, &[9; 4], 9);
    bench.refuses(1, 3, &[9; 7], 10);
    bench.refuses(1, 3, &[9; 9], 10);
    bench.refuses(1, 3, &[9; 8], 11);
    bench.lacks(1, 0);
}
