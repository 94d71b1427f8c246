ghost use Rattle.std.specs.Prelude.{◌≡◌, ◌+◌, length, sum_by};
ghost use Rattle.flash.specs.Meaning.{Card};
ghost use Rattle.rules.specs.State.{capacity as capacity_of, deads, live_of, dead_of, free_of};
ghost use Rattle.store.specs.State.{state_of};
ghost use Rattle.store.specs.View.{slots_of, table_of};

use crate::maps::Maps;
use crate::slot::{RegionBlock, Slot};
use rules::choice::Counted;

// The count of a block of the page-mapped region: its dead slots.
impl Counted for RegionBlock {
    ghost tally = { λ k. deads (slots_of k) };

    // A sum, which is made many slots at a time; a filter and its count are not.
    fn count(&self) -> usize {
        self.used_slots()
            .iter()
            .map(|slot| usize::from(matches!(*slot, Slot::Dead)))
            .sum()
    }
}

impl Maps {
    // The programmed slots of the page-mapped region.
    fn used(&self) -> usize
        ensures { result ≡ sum_by length (table_of self.now.plan self.now.table) }
    {
        self.rows().iter().map(|row| row.used).sum()
    }

    // The dead slots among them.
    pub(crate) fn dead(&self) -> usize
        ensures { (c : Card) → result ≡ dead_of (state_of self.now c) }
    {
        self.rows().iter().map(|row| row.count()).sum()
    }

    // The live slots among them.
    pub(crate) fn live(&self) -> usize
        ensures { (c : Card) → result ≡ live_of (state_of self.now c) }
    {
        self.used() - self.dead()
    }

    // The slots that are not programmed, without those of the reserve.
    pub(crate) fn free(&self) -> usize
        ensures is { (c : Card) → result ≡ free_of (state_of self.now c) }
        ensures all { (c : Card) → live_of (state_of self.now c) + dead_of (state_of self.now c) + result ≡ capacity_of self.now.plan self.now.pages }
    {
        self.plan.capacity(self.pages) as usize - self.used()
    }
}
