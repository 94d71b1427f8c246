// Which block garbage collection takes next.
ghost use Rattle.std.specs.Prelude.{◌≡◌, ℕ, ◌<◌, length, slice_index_or};
ghost use Rattle.std.specs.List.{range_with_len};
ghost use Rattle.rules.specs.Choice.{greatest as greatest_by};
ghost use Rattle.rules.specs.State.{deads, share_of};
ghost use Rattle.store.specs.Places.{block_in};
ghost use Rattle.store.specs.View.{table_of};

use crate::maps::Maps;
use crate::slot::Slot;
use rules::block::LogicalBlock;
use rules::choice::greatest;

impl Maps {
    // The block of the page-mapped region with the most dead slots, the lowest on a tie.
    pub(crate) fn victim(&self) -> Option<usize>
        ensures { result ≡ greatest_by deads (table_of self.now.plan self.now.table) }
    {
        greatest(self.rows())
    }

    // The live slots of each data block in the page-mapped region, in a table for the most blocks: there is no heap.
    fn shares(&self) -> [usize; 128]
        ensures wide { length result ≡ 128 }
        ensures each { (d : ℕ) → d < 128 → slice_index_or result d 0 ≡ share_of (table_of self.now.plan self.now.table) d }
    {
        let mut shares = [0; 128];
        for row in self.rows() {
            for slot in row.used_slots() {
                if let Slot::Live(owner, _) = *slot {
                    shares[owner.0 as usize] += 1;
                }
            }
        }
        shares
    }

    // The data block with the most live slots in the page-mapped region, the lowest on a tie.
    pub(crate) fn fullest(&self) -> Option<LogicalBlock>
        ensures { block_in result ≡ greatest_by (share_of (table_of self.now.plan self.now.table)) (range_with_len 0 self.now.plan.data) }
    {
        let shares = self.shares();
        greatest(&shares[..self.plan.data as usize]).map(|place| LogicalBlock(place as u8))
    }
}
