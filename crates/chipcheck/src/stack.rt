ghost use Rattle.std.specs.Prelude.{◌≡◌};
ghost use Rattle.flash.specs.Meaning.{block_count};
ghost use Rattle.bringup.specs.Checked.{noted_below, summary_below};
ghost use Rattle.layers.specs.Stack.{stack_card};

use bringup::check::check_flash;
use bringup::report::{BlockOutcome, Summary};
use flash::block::PhysicalBlock;
use flash::device::Flash;
use layers::stack::stacked;

// Stacks the layers on two flashes of any kinds, the good blocks of a pair of their good blocks, and checks the whole.
pub fn check_stack<L: Flash + Drop, R: Flash + Drop>(
    left: L,
    left_bad: &[PhysicalBlock],
    right: R,
    right_bad: &[PhysicalBlock],
    bad: &[PhysicalBlock],
    outcomes: &mut [BlockOutcome; 256],
) -> Summary
    ensures notes { let c = stack_card (L.card left) left_bad.now (R.card right) right_bad.now bad.now in
        outcomes.new ≡ noted_below (block_count c) c outcomes.old }
    ensures tells { let c = stack_card (L.card left) left_bad.now (R.card right) right_bad.now bad.now in
        result ≡ summary_below (block_count c) c }
{
    let mut stack = stacked(left, left_bad, right, right_bad, bad);
    check_flash(&mut stack, outcomes)
}
