ghost use Rattle.std.specs.Prelude.{◌≡◌};
ghost use Rattle.store.specs.Numbers.{number_of};

// Why a store refuses a call. A refused call changes nothing.
#[derive(Clone, Copy, PartialEq, Eq, Debug)]
pub enum StoreRefusal {
    // the store has no plan, or its flash is not as its maps say
    Unformatted = 6,
    // the block is none of the plan's data blocks
    NoSuchBlock = 7,
    // a page is none of a block's pages
    NoSuchPage = 8,
    // the set has no pages
    EmptySet = 9,
    // the data is not as long as the pages of the set
    WrongData = 10,
    // the work area is shorter than a block's pages
    ShortArea = 11,
    // some block has too few erases left
    NearWorn = 12,
    // the buffer is not as long as a page
    WrongBuffer = 13,
    // the page is not held
    NotHeld = 14,
    // the plan is out of its limits
    PlanOutOfLimits = 15,
    // the flash has fewer blocks than the plan
    FlashTooSmall = 16,
}

// The number that stands for the refusal outside the program.
impl From<StoreRefusal> for u8 {
    ghost from_gives = { λ refusal number. number ≡ number_of refusal };

    fn from(refusal: StoreRefusal) -> u8 {
        refusal as u8
    }
}
