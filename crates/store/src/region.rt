ghost use Rattle.std.specs.Prelude.{◌≡◌};
ghost use Rattle.store.specs.Places.{way_of};

// Where a page is held: in the page-mapped region, or in its data block.
#[derive(Clone, Copy, PartialEq, Eq, Debug)]
pub enum Region {
    PageMapped = 1,
    BlockMapped = 2,
}

// The number that stands for the region outside the program.
impl From<Region> for u8 {
    ghost from_gives = { λ region number. number ≡ way_of region };

    fn from(region: Region) -> u8 {
        region as u8
    }
}
