ghost use Rattle.std.specs.Prelude.{◌≡◌, None, MatchResult};
ghost use Rattle.flash.specs.Meaning.{Sound};
ghost use Rattle.store.specs.Calls.{agreeing, state_in, InForce, plan_in, held_in};
ghost use Rattle.store.specs.Places.{found_as};
ghost use Rattle.store.specs.State.{state_of};

use crate::blocks::region_block;
use crate::maps::Maps;
use crate::refusal::StoreRefusal;
use crate::region::Region;
use flash::block::PhysicalBlock;
use flash::device::Flash;
use rules::block::LogicalBlock;
use rules::plan::Plan;

// A mapping layer over a flash. It is of use once it is formatted.
// No `impl Model`: clauses name the flash itself, since `release` gives it back and a refusal leaves it.
#[derive(Drop)]
pub struct Store<F: Flash> {
    pub(crate) flash: F,
    // the maps of the last format, once there was one
    pub(crate) maps: Option<Maps>,
}

impl Maps {
    // Whether a flash is as the maps say: its pages, room for the plan, and the floors of the page-mapped region.
    fn agrees<F: Flash>(&self, flash: &F) -> bool
        ensures is { result ≡ agreeing (state_of self.now (F.card flash.now)) }
        ensures sound { Sound (F.card flash.now) }
    {
        let geometry = flash.geometry();
        self.pages == geometry.pages
            && self.plan.data + self.plan.region <= geometry.blocks
            && self.rows().iter().enumerate().all(|(place, row)| {
                let block = region_block(self.plan, place);
                flash.floor(block) == row.used
            })
    }
}

impl<F: Flash> Store<F> {
    // A store over a flash, not formatted yet.
    pub fn new(flash: F) -> Store<F>
        ensures over { result.flash ≡ flash }
        ensures state { state_in result.maps (F.card result.flash) ≡ None }
    {
        Store { flash, maps: None }
    }

    // Gives the flash back.
    pub fn release(self) -> F
        ensures { result ≡ self.flash }
    {
        let Store { flash, maps: _ } = self;
        flash
    }

    // The flash, to be asked.
    pub fn flash(&self) -> &F
        ensures { result.now ≡ self.now.flash }
    {
        &self.flash
    }

    // The maps in force: those of a formatted store whose flash is as they say.
    pub(crate) fn ready(&self) -> Result<&Maps, StoreRefusal>
        ensures { MatchResult result (λ maps. InForce (state_in self.now.maps (F.card self.now.flash)) (state_of maps.now (F.card self.now.flash))) (λ refusal. (state_in self.now.maps (F.card self.now.flash) ≡ None) × (refusal ≡ StoreRefusal.Unformatted)) }
    {
        let Some(maps) = &self.maps else {
            return Err(StoreRefusal::Unformatted);
        };
        if !maps.agrees(&self.flash) {
            return Err(StoreRefusal::Unformatted);
        }
        Ok(maps)
    }

    // The plan, once there is one.
    pub fn plan(&self) -> Option<Plan>
        ensures { result ≡ plan_in (state_in self.now.maps (F.card self.now.flash)) }
    {
        let maps = self.ready().ok()?;
        Some(maps.plan)
    }

    // Where a page is held: the region, the flash block and its page.
    pub fn locate(&self, block: LogicalBlock, page: usize) -> Option<(Region, PhysicalBlock, usize)>
        ensures { found_as result ≡ held_in (state_in self.now.maps (F.card self.now.flash)) block.0 page }
    {
        let maps = self.check_page(block, page).ok()?;
        maps.locate(block, page)
    }
}
