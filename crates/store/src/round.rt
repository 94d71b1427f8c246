ghost use Rattle.std.specs.Prelude.{◌≡◌, ◌*◌, ◌<◌, length, IsOkAnd};
ghost use Rattle.rules.specs.Moves.{round as round_of, rounds_for, at_rest};
ghost use Rattle.rules.specs.State.{dead_of};
ghost use Rattle.rules.proofs.ReadyRounds.{Roundable};
ghost use Rattle.store.specs.Rounds.{Made, Roomy, CanMakeRoom};
ghost use Rattle.store.specs.State.{state_of};

use crate::group::Group;
use crate::maps::Maps;
use crate::tally::Tally;
use flash::device::Flash;
use flash::refusal::Refusal;
use rules::pages::PageSet;

impl Maps {
    // Compacts the block of the page-mapped region that has the most dead slots. What a round asks is asked of each of its
    // parts: it relates maps, flash and area, so that no type of one can say it.
    fn compact_worst<F: Flash>(&mut self, flash: &mut F, area: &mut [u8]) -> Result<Tally, Refusal>
        requires roundable { Roundable (state_of self.old (F.card flash.old)) }
        requires roomy { Roomy (state_of self.old (F.card flash.old)) (length area.old) }
        requires some_dead { 0 < dead_of (state_of self.old (F.card flash.old)) }
        ensures { IsOkAnd result (λ tally. Made tally (state_of self.new (F.card flash.new)) (round_of (at_rest (state_of self.old (F.card flash.old))))) }
    {
        let Some(victim) = self.victim() else {
            unreachable!()
        };
        let size = flash.geometry().size;
        self.compact(flash, victim, &mut area[..size])?;
        Ok(Tally {
            erases: 1,
            compactions: 1,
            ..Tally::default()
        })
    }

    // Merges the data block that has the most live slots in the page-mapped region.
    fn merge_fullest<F: Flash>(&mut self, flash: &mut F, area: &mut [u8]) -> Result<Tally, Refusal>
        requires roundable { Roundable (state_of self.old (F.card flash.old)) }
        requires roomy { Roomy (state_of self.old (F.card flash.old)) (length area.old) }
        requires none_dead { dead_of (state_of self.old (F.card flash.old)) ≡ 0 }
        ensures { IsOkAnd result (λ tally. Made tally (state_of self.new (F.card flash.new)) (round_of (at_rest (state_of self.old (F.card flash.old))))) }
    {
        let Some(block) = self.fullest() else {
            unreachable!()
        };
        let none = Group {
            block,
            pages: PageSet::EMPTY,
            bytes: &[],
        };
        let erases = self.rewrite(flash, &none, area)?;
        Ok(Tally {
            erases,
            merges: 1,
            ..Tally::default()
        })
    }

    // One round of garbage collection: a compaction if any slot is dead, and otherwise a merge.
    pub(crate) fn collect<F: Flash>(
        &mut self,
        flash: &mut F,
        area: &mut [u8],
    ) -> Result<Tally, Refusal>
        requires roundable { Roundable (state_of self.old (F.card flash.old)) }
        requires roomy { Roomy (state_of self.old (F.card flash.old)) (length area.old) }
        ensures { IsOkAnd result (λ tally. Made tally (state_of self.new (F.card flash.new)) (round_of (at_rest (state_of self.old (F.card flash.old))))) }
    {
        if self.dead() > 0 {
            return self.compact_worst(flash, area);
        }
        self.merge_fullest(flash, area)
    }

    // Rounds of garbage collection while fewer than so many slots are free.
    pub(crate) fn make_room<F: Flash>(
        &mut self,
        flash: &mut F,
        slots: usize,
        area: &mut [u8],
    ) -> Result<Tally, Refusal>
        requires { CanMakeRoom (state_of self.old (F.card flash.old)) slots (length area.old) }
        ensures { IsOkAnd result (λ tally. Made tally (state_of self.new (F.card flash.new)) (rounds_for (2 * slots) slots (at_rest (state_of self.old (F.card flash.old))))) }
    {
        let mut tally = Tally::default();
        while self.free() < slots {
            tally += self.collect(flash, area)?;
        }
        Ok(tally)
    }
}
