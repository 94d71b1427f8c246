ghost use Rattle.std.specs.Prelude.{◌≡◌, ◌+◌, ◌<◌, [], ◌∷◌, ◌++◌, map, take, slice_set};
ghost use Rattle.rules.specs.State.{live, dead};
ghost use Rattle.rules.specs.Moves.{retire as retire_if, of_block};
ghost use Rattle.store.specs.View.{slots_of};

use crate::slot::{RegionBlock, Slot};
use rules::block::LogicalBlock;

impl RegionBlock {
    // A block without programmed slots.
    pub(crate) fn empty() -> RegionBlock
        ensures { slots_of result ≡ [] }
    {
        RegionBlock {
            slots: [Slot::Dead; 64],
            used: 0,
        }
    }

    // The programmed slots.
    pub(crate) fn used_slots(&self) -> &[Slot]
        ensures { result.now ≡ take self.now.used self.now.slots }
    {
        &self.slots[..self.used]
    }

    // The next slot is a page of a logical block.
    pub(crate) fn append(&mut self, block: LogicalBlock, page: u8)
        requires { self.old.used < 64 }
        ensures used { self.new.used ≡ self.old.used + 1 }
        ensures slots { slots_of self.new ≡ slots_of self.old ++ (live block.0 page ∷ []) }
    {
        self.slots[self.used] = Slot::Live(block, page);
        self.used += 1;
    }

    // One slot becomes dead.
    pub(crate) fn mark(&mut self, slot: usize)
        requires { slot < self.old.used }
        ensures { slots_of self.new ≡ slice_set (slots_of self.old) slot dead }
    {
        self.slots[slot] = Slot::Dead;
    }

    // The live slots of a logical block become dead. The used slots are counted off, and the rest is not looked at: of a part
    // of the slots, or of an adapter over them, that was lent as `&mut`, a proof knows no slot afterwards.
    pub(crate) fn retire(&mut self, block: LogicalBlock)
        ensures { slots_of self.new ≡ map (retire_if (of_block block.0)) (slots_of self.old) }
    {
        let mut left = self.used;
        for slot in self.slots.iter_mut() {
            if left == 0 {
                break;
            }
            left -= 1;
            if let Slot::Live(owner, _) = *slot {
                if owner == block {
                    *slot = Slot::Dead;
                }
            }
        }
    }
}
