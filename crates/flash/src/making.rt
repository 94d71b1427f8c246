ghost use Rattle.std.specs.Prelude.{◌≡◌};
ghost use Rattle.flash.specs.Numbers.{fault_number};

use crate::block::PhysicalBlock;

// Why a flash cannot be made of what is given, as told by the check before the making.
#[derive(Clone, Copy, PartialEq, Eq, Debug)]
pub enum MakingFault {
    // a measure is out of its limits, or two flashes do not fit side by side
    OutOfLimits,
    // the memory is too short for the measures
    MemoryShort,
    // the header of this block says what no header may say
    BadHeader(PhysicalBlock),
    // this block holds a byte other than 255 at or above its floor
    NotBlank(PhysicalBlock),
}

// The number that stands for the fault outside the program.
impl From<MakingFault> for u8 {
    ghost from_gives = { λ fault n. n ≡ fault_number fault };

    fn from(fault: MakingFault) -> u8 {
        match fault {
            MakingFault::OutOfLimits => 22,
            MakingFault::MemoryShort => 23,
            MakingFault::BadHeader(_) => 24,
            MakingFault::NotBlank(_) => 25,
        }
    }
}
