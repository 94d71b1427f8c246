use rules::block::LogicalBlock;
use rules::pages::PageSet;

// Pages of one data block that are written together. Their bytes come in ascending order of the pages.
#[derive(Clone, Copy)]
pub(crate) struct Group<'a> {
    pub(crate) block: LogicalBlock,
    pub(crate) pages: PageSet,
    pub(crate) bytes: &'a [u8],
}
