ghost use Rattle.std.specs.Prelude.{◌≡◌, ◌+◌, ◌<◌, ◌≤◌, length, take};
ghost use Rattle.rules.specs.State.{capacity};
ghost use Rattle.rules.specs.Ready.{Orderly};
ghost use Rattle.store.specs.View.{sets_of, table_of};

use crate::slot::RegionBlock;
use rules::pages::PageSet;
use rules::plan::Plan;

// The two maps of a formatted store. Their moves are lent the flash: a store has its flash before it has maps, so no struct
// owns both at all times. Both maps are as long as in the largest plan, since the card has no allocator.
#[derive(Drop)]
pub(crate) struct Maps {
    pub(crate) plan: Plan,
    // pages a block
    pub(crate) pages: usize,
    // the block map: for each data block the set of its valid pages
    pub(crate) sets: [PageSet; 128],
    // the page map: for each block of the page-mapped region its slots
    pub(crate) table: [RegionBlock; 16],
    // the block of the page-mapped region that is kept blank
    pub(crate) reserve: usize,
    ghost wide_sets: { length sets ≡ 128 },
    ghost wide_table: { length table ≡ 16 },
    ghost some_data: { 1 ≤ plan.data },
    ghost few_data: { plan.data ≤ 128 },
    ghost two_blocks: { 2 ≤ plan.region },
    ghost few_blocks: { plan.region ≤ 16 },
    ghost low_threshold: { plan.threshold ≤ pages },
    ghost low_idle: { plan.idle + 1 ≤ capacity plan pages },
    ghost few_pages: { pages ≤ 64 },
    ghost spare: { reserve < plan.region },
    ghost orderly: { ∥ Orderly plan pages (sets_of plan sets) (table_of plan table) reserve ∥₁ },
}

impl Maps {
    // The blocks of the page-mapped region.
    pub(crate) fn rows(&self) -> &[RegionBlock]
        ensures { result.now ≡ take self.now.plan.region self.now.table }
    {
        &self.table[..self.plan.region as usize]
    }
}
