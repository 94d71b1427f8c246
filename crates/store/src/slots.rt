ghost use Rattle.std.specs.Prelude.{◌≡◌};
ghost use Rattle.store.specs.Calls.{state_in, slots_in};

use crate::store::Store;
use flash::device::Flash;

// How many slots of the page-mapped region, without the reserve, are in which state.
#[derive(Clone, Copy, Default, PartialEq, Eq, Debug)]
pub struct SlotCounts {
    // slots with the current copy of a page
    pub live: usize,
    // slots with a copy that is out of date
    pub dead: usize,
    // slots that are not programmed
    pub free: usize,
}

impl<F: Flash> Store<F> {
    // The slots of the page-mapped region, counted; none of a store that is not formatted.
    pub fn slots(&self) -> SlotCounts
        ensures { result ≡ slots_in (state_in self.now.maps (F.card self.now.flash)) }
    {
        let Ok(maps) = self.ready() else {
            return SlotCounts::default();
        };
        SlotCounts {
            live: maps.live(),
            dead: maps.dead(),
            free: maps.free(),
        }
    }
}
