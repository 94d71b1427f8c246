ghost use Rattle.std.specs.Prelude.{◌≡◌};
ghost use Rattle.worklist.specs.Totals.{Countable, with_step};

use crate::fault::ListFault;
use crate::step::Step;
use std::ops::AddAssign;

// How a run of a work list ended, and what it took.
#[derive(Clone, Copy, PartialEq, Eq, Debug, Default)]
pub struct Ended {
    // why the list stopped before its end, if it did
    pub fault: Option<ListFault>,
    // the byte of the list where it ended
    pub place: usize,
    // records carried out, refused or not
    pub records: usize,
    // bytes of answers written
    pub written: usize,
    // erases that the answers tell
    pub erases: usize,
    // accepted groups that were large
    pub large_groups: usize,
    // pages of the accepted groups that were not
    pub small_pages: usize,
}

// One record more is counted, with what it took.
impl AddAssign<Step> for Ended {
    ghost can_add_assign = { Countable };

    ghost add_assign_gives = { λ was step is. is ≡ with_step was step };

    fn add_assign(&mut self, step: Step) {
        self.records += 1;
        self.written += step.written;
        self.erases += step.erases;
        self.large_groups += step.large;
        self.small_pages += step.small;
    }
}
