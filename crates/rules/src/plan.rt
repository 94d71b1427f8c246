ghost use Rattle.std.specs.Prelude.{◌≡◌};
ghost use Rattle.rules.specs.State.{plan_within, capacity as capacity_of, quota as quota_of};

// How a card is divided, as format is told.
#[derive(Clone, Copy, PartialEq, Eq, Debug)]
pub struct Plan {
    // data blocks, the flash blocks 0 and up
    pub data: u16,
    // blocks of the page-mapped region, the flash blocks after those
    pub region: u16,
    // groups of more pages than this go to the data blocks
    pub threshold: usize,
    // an idle round works while at most so many slots are free
    pub idle: usize,
}

impl Plan {
    // The slots of the page-mapped region without its reserve, in blocks of so many pages.
    pub fn capacity(self, pages: usize) -> u128
        ensures { result ≡ capacity_of self pages }
    {
        self.region.saturating_sub(1) as u128 * pages as u128
    }

    // How many live slots there are at the least when garbage collection has to merge.
    pub fn quota(self, pages: usize) -> u128
        ensures { result ≡ quota_of self pages }
    {
        let reached = (self.threshold as u128).max(self.idle as u128 + 1);
        (self.capacity(pages) + 1).saturating_sub(reached)
    }

    // Whether a card with so many pages a block can be divided so.
    pub fn within_limits(self, pages: usize) -> bool
        ensures { result ≡ plan_within self pages }
    {
        self.data >= 1
            && self.data <= 128
            && self.region >= 2
            && self.region <= 16
            && self.threshold <= pages
            && (self.idle as u128) < self.capacity(pages)
    }
}
