use crate::card::{Bench, CARD, TRIAL, told};
use chips::plain::PlainChip;
use flash::device::Flash;
use rules::block::LogicalBlock;
use rules::pages::PageSet;
use rules::plan::Plan;
use std::process::Abort;
use store::region::Region;
use store::report::Report;

impl<'a, A: Abort, F: Flash> Bench<'a, A, F> {
    // Makes an idle round and checks what it tells.
    fn rests(&mut self, erases: usize, compactions: usize, merges: usize) {
        let mut area = [7u8; 17];
        let report = Report {
            way: None,
            erases,
            compactions,
            merges,
        };
        assert_eq!(self.rt; self.store.idle_round(&mut area), Ok(report));
        assert_eq!(self.rt; &area[0..16], [0u8; 16].as_slice());
        assert_eq!(self.rt; area[16], 7);
    }
}

// In a full region without dead slots the first round merges block 0, the next one compacts the block of its dead
// slots, and then there is nothing to do.
#[test]
fn rounds_in_a_full_region(rt: HostRuntime) {
    let mut memory = [0u8; 80];
    let mut bench = Bench::over(&rt, PlainChip::new(&mut memory, CARD));
    bench.fill(TRIAL);
    bench.rests(0, 0, 1);
    bench.reads(0, 2, Region::BlockMapped, 34);
    bench.rests(1, 1, 0);
    bench.rests(0, 0, 0);
    bench.reads(0, 2, Region::BlockMapped, 34);
    bench.reads(1, 1, Region::PageMapped, 85);
}

// One free slot is enough at idle 0, even where a slot is dead.
#[test]
fn round_at_the_limit(rt: HostRuntime) {
    let mut memory = [0u8; 80];
    let mut bench = Bench::over(&rt, PlainChip::new(&mut memory, CARD));
    bench.formats(TRIAL);
    let quiet = told(Region::PageMapped, 0, 0, 0);
    for _ in 0..7 {
        bench.flushes(0, 1, &[1; 4], quiet);
    }
    bench.rests(0, 0, 0);
    bench.flushes(0, 1, &[2; 4], quiet);
    bench.rests(1, 1, 0);
    bench.reads(0, 0, Region::PageMapped, 2);
}

// With the greatest idle limit a single programmed slot is work: a merge, and then a compaction.
#[test]
fn greatest_idle_limit(rt: HostRuntime) {
    let mut memory = [0u8; 80];
    let mut bench = Bench::over(&rt, PlainChip::new(&mut memory, CARD));
    bench.formats(Plan { idle: 7, ..TRIAL });
    bench.rests(0, 0, 0);
    bench.flushes(1, 4, &[3; 4], told(Region::PageMapped, 0, 0, 0));
    bench.rests(0, 0, 1);
    bench.reads(1, 2, Region::BlockMapped, 3);
    bench.rests(1, 1, 0);
    bench.rests(0, 0, 0);
    bench.reads(1, 2, Region::BlockMapped, 3);
    assert_eq!(rt; bench.store.discard(LogicalBlock(1), PageSet(4)), Ok(()));
    bench.lacks(1, 2);
}
