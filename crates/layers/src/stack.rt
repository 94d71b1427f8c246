ghost use Rattle.std.specs.Prelude.{◌≡◌};
ghost use Rattle.layers.specs.Good.{good_card};
ghost use Rattle.layers.specs.Pair.{pair_card};
ghost use Rattle.layers.specs.Stack.{stack_card};

use crate::good::GoodBlocks;
use crate::pair::Pair;
use flash::block::PhysicalBlock;
use flash::device::Flash;

// The good blocks of a pair of the good blocks of two flashes of any kinds.
pub fn stacked<L: Flash, R: Flash>(
    left: L,
    left_bad: &[PhysicalBlock],
    right: R,
    right_bad: &[PhysicalBlock],
    bad: &[PhysicalBlock],
) -> GoodBlocks<Pair<GoodBlocks<L>, GoodBlocks<R>>>
    ensures { let pair = result.flash in
        let l = good_card pair.left.bad (L.card pair.left.flash) in
        let r = good_card pair.right.bad (R.card pair.right.flash) in
        good_card result.bad (pair_card l r) ≡ stack_card (L.card left) left_bad.now (R.card right) right_bad.now bad.now }
{
    let left = GoodBlocks::new(left, left_bad);
    let right = GoodBlocks::new(right, right_bad);
    GoodBlocks::new(Pair::new(left, right), bad)
}
