use crate::region::Region;

// What an accepted flush or idle round tells.
#[derive(Clone, Copy, Default, PartialEq, Eq, Debug)]
pub struct Report {
    // where the group went
    pub way: Option<Region>,
    // erases that it took
    pub erases: usize,
    // compactions that were made
    pub compactions: usize,
    // merges that were made
    pub merges: usize,
}
