ghost use Rattle.std.specs.Prelude.{◌≡◌};
ghost use Rattle.flash.specs.Numbers.{number_of};

// Why a flash refuses a call. A refused call changes nothing.
#[derive(Clone, Copy, PartialEq, Eq, Debug)]
pub enum Refusal {
    NoSuchBlock = 17,
    NoSuchPage = 18,
    WrongLength = 19,
    BelowFloor = 20,
    WornOut = 21,
}

// The number that stands for the refusal outside the program.
impl From<Refusal> for u8 {
    ghost from_gives = { λ refusal n. n ≡ number_of refusal };

    fn from(refusal: Refusal) -> u8 {
        refusal as u8
    }
}
