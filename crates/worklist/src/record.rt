use rules::block::LogicalBlock;
use rules::pages::PageSet;

// A record of a work list. A flush shows its data as a part of the list, which is a rule of the project.
#[derive(Clone, Copy)]
pub enum Record<'a> {
    Flush {
        block: LogicalBlock,
        pages: PageSet,
        bytes: &'a [u8],
    },
    Read {
        block: LogicalBlock,
        page: usize,
    },
    Discard {
        block: LogicalBlock,
        pages: PageSet,
    },
    Idle,
}

// A record with the place of its first byte, and the place of the next record.
#[derive(Clone, Copy)]
pub struct Taken<'a> {
    pub record: Record<'a>,
    pub place: usize,
    pub next: usize,
}
