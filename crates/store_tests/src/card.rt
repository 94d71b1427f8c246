// The trial card, and the bench on which the tests try a store over it.
use flash::device::Flash;
use flash::geometry::Geometry;
use rules::block::LogicalBlock;
use rules::pages::PageSet;
use rules::plan::Plan;
use std::process::Abort;
use store::refusal::StoreRefusal;
use store::region::Region;
use store::report::Report;
use store::store::Store;

pub(crate) const CARD: Geometry = Geometry {
    blocks: 5,
    pages: 4,
    size: 4,
    endurance: 1000,
};

pub(crate) const TRIAL: Plan = Plan {
    data: 2,
    region: 3,
    threshold: 2,
    idle: 0,
};

// A report of a group that went this way.
pub(crate) fn told(way: Region, erases: usize, compactions: usize, merges: usize) -> Report {
    Report {
        way: Some(way),
        erases,
        compactions,
        merges,
    }
}

// A store, and the runtime by which a check of it fails a test.
#[derive(Drop)]
pub(crate) struct Bench<'a, A: Abort, F: Flash> {
    pub(crate) rt: &'a A,
    pub(crate) store: Store<F>,
}

impl<'a, A: Abort, F: Flash> Bench<'a, A, F> {
    // A store over a flash, not formatted yet.
    pub(crate) fn over(rt: &'a A, flash: F) -> Bench<'a, A, F> {
        Bench {
            rt,
            store: Store::new(flash),
        }
    }

    // Formats the store, where no block has to be erased.
    pub(crate) fn formats(&mut self, plan: Plan) {
        assert_eq!(self.rt; self.store.format(plan), Ok(0));
    }

    // Flushes pages of a block by way of an area of its own, and checks the report.
    pub(crate) fn flushes(&mut self, block: u8, set: u64, bytes: &[u8], report: Report) {
        let mut area = [0u8; 16];
        assert_eq!(self.rt;
            self.store
                .flush(LogicalBlock(block), PageSet(set), bytes, &mut area),
            Ok(report)
        );
    }

    // Checks that a page of a block is held in a region and is four times this byte.
    pub(crate) fn reads(&self, block: u8, page: usize, region: Region, byte: u8) {
        let mut into = [0u8; 4];
        assert_eq!(self.rt;
            self.store.read(LogicalBlock(block), page, &mut into),
            Ok(region)
        );
        assert_eq!(self.rt; &into[0..4], [byte; 4].as_slice());
    }

    // Checks that a page of a block is not held, and that the buffer stays.
    pub(crate) fn lacks(&self, block: u8, page: usize) {
        let mut into = [7u8; 4];
        assert_eq!(self.rt;
            self.store.read(LogicalBlock(block), page, &mut into),
            Err(StoreRefusal::NotHeld)
        );
        assert_eq!(self.rt; &into[0..4], [7u8; 4].as_slice());
    }

    // Formats the store by a plan and fills its page-mapped region: each page of both blocks once.
    pub(crate) fn fill(&mut self, plan: Plan) {
        self.formats(plan);
        let quiet = told(Region::PageMapped, 0, 0, 0);
        self.flushes(0, 3, &[0, 0, 0, 0, 17, 17, 17, 17], quiet);
        self.flushes(0, 12, &[34, 34, 34, 34, 51, 51, 51, 51], quiet);
        self.flushes(1, 3, &[68, 68, 68, 68, 85, 85, 85, 85], quiet);
        self.flushes(1, 12, &[102, 102, 102, 102, 119, 119, 119, 119], quiet);
    }
}
