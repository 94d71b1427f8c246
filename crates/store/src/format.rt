ghost use Rattle.std.specs.Prelude.{◌≡◌, OnErr};
ghost use Rattle.rules.specs.Calls.{formatted as state_from};
ghost use Rattle.rules.specs.Law.{Kept, Lasts};
ghost use Rattle.store.specs.Calls.{state_in, state_formatted, FormatAs, Once};

use crate::clear::clear_below;
use crate::maps::Maps;
use crate::refusal::StoreRefusal;
use crate::store::Store;
use crate::wear::near_worn;
use flash::device::Flash;
use rules::plan::Plan;

impl<F: Flash> Store<F> {
    // Divides the card by a plan: erases each block of the plan that is not blank, empties the maps, and tells the
    // erases. A store may be formatted again; a refused format leaves the old plan in force.
    // An accepted format promises for every list of calls that follows: the erase counts rise by no more than the ceiling
    // and by just what the answers tell, and every page reads back as it was last flushed (`keeps`); and no call is
    // refused for wear as long as every block has the ceiling and 128 erases to spare (`lasts`).
    pub fn format(&mut self, plan: Plan) -> Result<usize, StoreRefusal>
        ensures tells { FormatAs result plan (F.card self.old.flash) }
        ensures leaves { state_in self.new.maps (F.card self.new.flash) ≡ state_formatted result plan (F.card self.old.flash) (state_in self.old.maps (F.card self.old.flash)) }
        ensures keeps { Once result (Kept (state_from plan (F.card self.old.flash))) }
        ensures lasts { Once result (Lasts (state_from plan (F.card self.old.flash))) }
        ensures refused { OnErr result (self.new ≡ self.old) }
    {
        let geometry = self.flash.geometry();
        if !plan.within_limits(geometry.pages) {
            return Err(StoreRefusal::PlanOutOfLimits);
        }
        if geometry.blocks < plan.data + plan.region {
            return Err(StoreRefusal::FlashTooSmall);
        }
        if near_worn(&self.flash, geometry.blocks) {
            return Err(StoreRefusal::NearWorn);
        }
        let Ok(erases) = clear_below(&mut self.flash, plan.data + plan.region) else {
            unreachable!()
        };
        self.maps = Some(Maps::formatted(plan, geometry.pages));
        Ok(erases)
    }
}
