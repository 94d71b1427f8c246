ghost use Rattle.std.specs.Prelude.{◌≡◌};
ghost use Rattle.rules.specs.Calls.{near_worn};

use flash::block::PhysicalBlock;
use flash::device::Flash;

// Whether some block below a number has fewer than 128 erases left, which one call may need.
pub(crate) fn near_worn<F: Flash>(flash: &F, blocks: u16) -> bool
    ensures { result ≡ near_worn blocks (F.card flash.now) }
{
    let endurance = u64::from(flash.geometry().endurance);
    (0..blocks).any(|number| u64::from(flash.erase_count(PhysicalBlock(number))) + 128 > endurance)
}
