ghost use Rattle.std.specs.Prelude.{◌≡◌, ◌+◌, ◌^◌, ◌<◌};
ghost use Rattle.store.specs.Rounds.{tally_sum};

use crate::region::Region;
use crate::report::Report;
use std::ops::AddAssign;

// What rounds of garbage collection add up to.
#[derive(Clone, Copy, Default, PartialEq, Eq, Debug)]
pub(crate) struct Tally {
    pub(crate) erases: usize,
    pub(crate) compactions: usize,
    pub(crate) merges: usize,
}

impl AddAssign for Tally {
    ghost can_add_assign = { λ was more. (was.erases + more.erases < 2 ^ 64) × (was.compactions + more.compactions < 2 ^ 64) × (was.merges + more.merges < 2 ^ 64) };

    ghost add_assign_gives = { λ was more is. is ≡ tally_sum was more };

    fn add_assign(&mut self, more: Tally) {
        self.erases += more.erases;
        self.compactions += more.compactions;
        self.merges += more.merges;
    }
}

impl Tally {
    // What is told of these rounds, of a group that went this way.
    // Field by field, since callers read the counts as fields of a report.
    pub(crate) fn report(self, way: Option<Region>) -> Report
        ensures { result ≡ record { way = way; erases = self.erases; compactions = self.compactions; merges = self.merges } }
    {
        Report {
            way,
            erases: self.erases,
            compactions: self.compactions,
            merges: self.merges,
        }
    }
}
