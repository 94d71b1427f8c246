ghost use Rattle.std.specs.Prelude.{◌≡◌, length, IsOkAnd, OnErr};
ghost use Rattle.rules.specs.Calls.{idle as idle_call, rested};
ghost use Rattle.store.specs.Calls.{state_in, state_after, CarriedOut, AnsweredAs, area_after, block_bytes};
ghost use Rattle.store.specs.Rounds.{CanRest};
ghost use Rattle.store.specs.State.{state_of};

use crate::maps::Maps;
use crate::refusal::StoreRefusal;
use crate::report::Report;
use crate::store::Store;
use flash::device::Flash;
use flash::refusal::Refusal;

impl Maps {
    // One round of garbage collection if at most as many slots are free as the plan's idle limit.
    fn rest<F: Flash>(&mut self, flash: &mut F, area: &mut [u8]) -> Result<Report, Refusal>
        requires { CanRest (state_of self.old (F.card flash.old)) (length area.old) }
        ensures { IsOkAnd result (λ report. CarriedOut report (state_of self.new (F.card flash.new)) (rested (state_of self.old (F.card flash.old)))) }
    {
        if self.free() > self.plan.idle {
            return Ok(Report::default());
        }
        let tally = self.collect(flash, area)?;
        Ok(tally.report(None))
    }
}

impl<F: Flash> Store<F> {
    // Garbage collection while nothing else is to be done: one round if few slots are free, by way of a work area of at
    // least a block's pages. The report tells what it took.
    pub fn idle_round(&mut self, area: &mut [u8]) -> Result<Report, StoreRefusal>
        ensures tells { AnsweredAs result (state_in self.old.maps (F.card self.old.flash)) (idle_call (length area.old)) }
        ensures leaves { state_in self.new.maps (F.card self.new.flash) ≡ state_after (state_in self.old.maps (F.card self.old.flash)) (idle_call (length area.old)) }
        ensures clears { area.new ≡ area_after result (block_bytes (F.card self.old.flash)) area.old }
        ensures refused { OnErr result (self.new ≡ self.old) }
    {
        self.check_idle(area.len())?;
        // ends as `flush` does: one function for both takes a closure, whose clauses repeat those of `rest`
        // no function lends the maps and the flash at once: `LendsBoth` speaks only of the parts of one slice
        let Some(maps) = &mut self.maps else {
            unreachable!()
        };
        let used = maps.pages * self.flash.geometry().size;
        let lent = &mut area[..used];
        let Ok(report) = maps.rest(&mut self.flash, lent) else {
            unreachable!()
        };
        lent.fill(0);
        Ok(report)
    }
}
