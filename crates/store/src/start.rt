ghost use Rattle.std.specs.Prelude.{◌≡◌, ◌≤◌, true};
ghost use Rattle.flash.specs.Meaning.{Card};
ghost use Rattle.rules.specs.State.{plan_within};
ghost use Rattle.store.specs.State.{state_of, empty_maps};

use crate::maps::Maps;
use crate::slot::RegionBlock;
use rules::pages::PageSet;
use rules::plan::Plan;

impl Maps {
    // The maps of a card on which no page is held, divided so.
    pub(crate) fn formatted(plan: Plan, pages: usize) -> Maps
        requires within { plan_within plan pages ≡ true }
        requires few_pages { pages ≤ 64 }
        ensures { (c : Card) → state_of result c ≡ empty_maps plan pages c }
    {
        Maps {
            plan,
            pages,
            sets: [PageSet::EMPTY; 128],
            table: [RegionBlock::empty(); 16],
            reserve: plan.region as usize - 1,
        }
    }
}
