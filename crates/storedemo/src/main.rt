// Puts a few groups of pages into a store over a small plain chip until garbage collection has to make room, reads some
// of them back, and prints a line for each step.
#![tactic(auto)]

use chips::plain::PlainChip;
use flash::device::Flash;
use flash::geometry::Geometry;
use rules::block::LogicalBlock;
use rules::pages::PageSet;
use rules::plan::Plan;
use std::io;
use store::refusal::StoreRefusal;
use store::region::Region;
use store::report::Report;
use store::store::Store;

// A store, and the terminal on which its steps are printed.
#[derive(Drop)]
struct Demo<'a, F: Flash> {
    rt: &'a HostRuntime,
    store: Store<F>,
}

// What a call tells is printed by methods: a `Display` here would need a type of its own around each of the store's.
impl<'a, F: Flash> Demo<'a, F> {
    // Begins a line with the region in which a page is held.
    fn print_region(&self, region: Region) -> io::Result<()> {
        let way = u8::from(region);
        print!(self.rt; "way {way}, ")
    }

    // Ends a line with the number of a refusal.
    fn print_refusal(&self, refusal: StoreRefusal) -> io::Result<()> {
        let number = u8::from(refusal);
        println!(self.rt; "refused with {number}")
    }

    // Ends a line with what a call reports, or with the number of its refusal.
    fn print_report(&self, report: Result<Report, StoreRefusal>) -> io::Result<()> {
        let report = match report {
            Ok(report) => report,
            Err(refusal) => return self.print_refusal(refusal),
        };
        if let Some(region) = report.way {
            self.print_region(region)?;
        }
        let Report {
            erases,
            compactions,
            merges,
            ..
        } = report;
        println!(self.rt; "erases {erases}, compactions {compactions}, merges {merges}")
    }

    // Ends a line with bytes in base sixteen, as the trial card does, with which this program shares no library.
    fn print_bytes(&self, bytes: &[u8]) -> io::Result<()> {
        for byte in bytes {
            print!(self.rt; "{byte:02x}")?;
        }
        println!(self.rt; "")
    }

    // Formats the store and prints the erases.
    fn format(&mut self, plan: Plan) -> io::Result<()> {
        print!(self.rt; "format: ")?;
        match self.store.format(plan) {
            Ok(erases) => println!(self.rt; "{erases} erases"),
            Err(refusal) => self.print_refusal(refusal),
        }
    }

    // Prints where a page is held.
    fn locate(&self, block: LogicalBlock, page: usize) -> io::Result<()> {
        let number = block.0;
        print!(self.rt; "place of block {number} page {page}: ")?;
        match self.store.locate(block, page) {
            Some((region, held_in, held_at)) => {
                self.print_region(region)?;
                let held_in = held_in.0;
                println!(self.rt; "flash block {held_in}, page {held_at}")
            }
            None => println!(self.rt; "nowhere"),
        }
    }

    // Reads a page and prints where it was held and its bytes.
    fn read(&self, block: LogicalBlock, page: usize) -> io::Result<()> {
        let number = block.0;
        print!(self.rt; "read of block {number} page {page}: ")?;
        let mut bytes = [0u8; 4];
        match self.store.read(block, page, &mut bytes) {
            Ok(region) => {
                self.print_region(region)?;
                self.print_bytes(&bytes)
            }
            Err(refusal) => self.print_refusal(refusal),
        }
    }

    // Stores a group and prints the report.
    fn flush(&mut self, block: LogicalBlock, pages: PageSet, bytes: &[u8]) -> io::Result<()> {
        let number = block.0;
        let set = pages.0;
        print!(self.rt; "flush of block {number} set {set}: ")?;
        let mut area = [0u8; 16];
        let report = self.store.flush(block, pages, bytes, &mut area);
        self.print_report(report)
    }

    // Drops pages and prints whether that was accepted.
    fn discard(&mut self, block: LogicalBlock, pages: PageSet) -> io::Result<()> {
        let number = block.0;
        let set = pages.0;
        print!(self.rt; "discard of block {number} set {set}: ")?;
        match self.store.discard(block, pages) {
            Ok(()) => println!(self.rt; "done"),
            Err(refusal) => self.print_refusal(refusal),
        }
    }

    // Makes an idle round and prints the report.
    fn rest(&mut self) -> io::Result<()> {
        print!(self.rt; "idle round: ")?;
        let mut area = [0u8; 16];
        let report = self.store.idle_round(&mut area);
        self.print_report(report)
    }

    // Stores four groups that fill the page-mapped region, and a fifth that needs room.
    fn fill_region(&mut self) -> io::Result<()> {
        let low = PageSet(3);
        let high = PageSet(12);
        let groups = [
            (0, low, [0x00, 0x00, 0x00, 0x00, 0x11, 0x11, 0x11, 0x11]),
            (0, high, [0x22, 0x22, 0x22, 0x22, 0x33, 0x33, 0x33, 0x33]),
            (1, low, [0x44, 0x44, 0x44, 0x44, 0x55, 0x55, 0x55, 0x55]),
            (1, high, [0x66, 0x66, 0x66, 0x66, 0x77, 0x77, 0x77, 0x77]),
        ];
        for (block, pages, bytes) in groups {
            self.flush(LogicalBlock(block), pages, &bytes)?;
        }
        self.flush(LogicalBlock(0), PageSet(1), &[0x88; 4])
    }

    // The steps, one after the other.
    fn take_steps(&mut self) -> io::Result<()> {
        let plan = Plan {
            data: 2,
            region: 3,
            threshold: 2,
            idle: 0,
        };
        let block = LogicalBlock(0);
        self.read(block, 0)?;
        self.format(plan)?;
        self.locate(block, 0)?;
        self.read(block, 0)?;
        self.fill_region()?;
        for page in 0..2 {
            self.locate(block, page)?;
        }
        for page in 0..2 {
            self.read(block, page)?;
        }
        self.discard(block, PageSet(1))?;
        self.read(block, 0)?;
        self.rest()
    }
}

fn main(rt: HostRuntime) -> io::Result<()> {
    let geometry = Geometry {
        blocks: 5,
        pages: 4,
        size: 4,
        endurance: 1000,
    };
    let mut memory = [0u8; 80];
    let mut demo = Demo {
        rt: &rt,
        store: Store::new(PlainChip::new(&mut memory, geometry)),
    };
    demo.take_steps()
}
