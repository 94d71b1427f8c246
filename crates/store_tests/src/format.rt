use crate::card::{Bench, CARD, TRIAL, told};
use chips::image::ImageChip;
use chips::plain::PlainChip;
use flash::device::Flash;
use rules::block::LogicalBlock;
use rules::pages::PageSet;
use rules::plan::Plan;
use std::process::Abort;
use store::refusal::StoreRefusal;
use store::region::Region;
use store::store::Store;

impl<'a, A: Abort, F: Flash> Bench<'a, A, F> {
    // Checks that a plan is told to be out of its limits.
    fn out_of_limits(&mut self, plan: Plan) {
        assert_eq!(self.rt; self.store.format(plan), Err(StoreRefusal::PlanOutOfLimits));
    }
}

// Plans past each limit, and one that is too big for the card; each leaves the old plan and its pages.
#[test]
fn a_refused_format_leaves_the_plan(rt: HostRuntime) {
    let mut memory = [0u8; 80];
    let mut bench = Bench::over(&rt, PlainChip::new(&mut memory, CARD));
    bench.formats(TRIAL);
    bench.flushes(1, 8, &[9; 4], told(Region::PageMapped, 0, 0, 0));
    bench.out_of_limits(Plan { data: 0, ..TRIAL });
    bench.out_of_limits(Plan { data: 129, ..TRIAL });
    bench.out_of_limits(Plan { region: 1, ..TRIAL });
    bench.out_of_limits(Plan {
        region: 17,
        ..TRIAL
    });
    bench.out_of_limits(Plan {
        threshold: 5,
        ..TRIAL
    });
    bench.out_of_limits(Plan { idle: 8, ..TRIAL });
    assert_eq!(rt;
        bench.store.format(Plan { data: 3, ..TRIAL }),
        Err(StoreRefusal::FlashTooSmall)
    );
    assert_eq!(rt; bench.store.plan(), Some(TRIAL));
    bench.reads(1, 3, Region::PageMapped, 9);
}

// What format tells of a card whose last block was erased eight times so often and some times more.
fn format_at(eights: u8, ones: u8) -> Result<usize, StoreRefusal> {
    let mut memory = [0u8; 100];
    let _ = ImageChip::blank(&mut memory, CARD);
    memory[82] = eights;
    memory[83] = ones << 5;
    Store::new(ImageChip::attach(&mut memory, CARD)).format(TRIAL)
}

// A block of 1,000 erases may have used 872 of them, and no more.
#[test]
fn format_of_a_worn_card(rt: HostRuntime) {
    assert_eq!(rt; format_at(109, 0), Ok(0));
    assert_eq!(rt; format_at(109, 1), Err(StoreRefusal::NearWorn));
}

// The second format erases the two blocks in use, and no page is held after it.
#[test]
fn format_after_use(rt: HostRuntime) {
    let mut memory = [0u8; 80];
    let mut bench = Bench::over(&rt, PlainChip::new(&mut memory, CARD));
    bench.formats(TRIAL);
    bench.flushes(1, 8, &[9; 4], told(Region::PageMapped, 0, 0, 0));
    bench.flushes(0, 7, &[5; 12], told(Region::BlockMapped, 0, 0, 0));
    let plan = Plan { data: 1, ..TRIAL };
    assert_eq!(rt; bench.store.format(plan), Ok(2));
    assert_eq!(rt; bench.store.plan(), Some(plan));
    bench.lacks(0, 0);
    bench.flushes(0, 1, &[6; 4], told(Region::PageMapped, 0, 0, 0));
    bench.reads(0, 0, Region::PageMapped, 6);
}

// Before the first format each call is refused.
#[test]
fn calls_before_the_first_format(rt: HostRuntime) {
    let mut memory = [0u8; 80];
    let mut bench = Bench::over(&rt, PlainChip::new(&mut memory, CARD));
    let mut area = [7u8; 16];
    assert_eq!(rt;
        bench
            .store
            .flush(LogicalBlock(0), PageSet(1), &[9; 4], &mut area),
        Err(StoreRefusal::Unformatted)
    );
    assert_eq!(rt;
        bench.store.idle_round(&mut area),
        Err(StoreRefusal::Unformatted)
    );
    assert_eq!(rt;
        bench.store.read(LogicalBlock(0), 0, &mut area[0..4]),
        Err(StoreRefusal::Unformatted)
    );
    assert_eq!(rt;
        bench.store.discard(LogicalBlock(0), PageSet(1)),
        Err(StoreRefusal::Unformatted)
    );
    assert_eq!(rt; bench.store.plan(), None);
    assert_eq!(rt; u8::from(StoreRefusal::Unformatted), 6);
    assert_eq!(rt; &area[0..16], [7u8; 16].as_slice());
}
