ghost use Rattle.std.specs.Prelude.{◌≡◌};
ghost use Rattle.std.specs.Option.{ok_or};
ghost use Rattle.flash.specs.declared.refusal.Refusal.TheVariants.{NoSuchBlock};
ghost use Rattle.std.specs.Result.{result_err};
ghost use Rattle.layers.specs.Pair.{matching, pair_fault, side_of, side_in, pair_card};

use flash::block::PhysicalBlock;
use flash::device::Flash;
use flash::geometry::Geometry;
use flash::making::MakingFault;
use flash::refusal::Refusal;

// Two flashes side by side: the even blocks are those of the left one, the odd blocks those of the right one.
// Two that do not fit make the flash without blocks.
#[derive(Drop)]
pub struct Pair<L: Flash, R: Flash> {
    left: L,
    right: R,
}

// A block of one of the two flashes.
// An enum of its own, since `either` would name its two cases no better.
#[derive(Clone, Copy)]
enum Side {
    Left(PhysicalBlock),
    Right(PhysicalBlock),
}

// Whether flashes with these measures fit side by side.
fn fits(left: Geometry, right: Geometry) -> bool
    ensures { result ≡ matching left right }
{
    left.blocks >= 1 && left.blocks <= 128 && left == right
}

// The flash that a block of a pair is on, and the block that it is there.
fn side_of(block: PhysicalBlock) -> Side
    ensures { result ≡ side_of block.0 }
{
    let below = PhysicalBlock(block.0 / 2);
    if block.0 % 2 == 0 {
        Side::Left(below)
    } else {
        Side::Right(below)
    }
}

impl<L: Flash, R: Flash> Pair<L, R> {
    // Why the two flashes do not fit side by side, or nothing where they do.
    pub fn fault(left: &L, right: &R) -> Result<(), MakingFault>
        ensures { result_err result ≡ pair_fault (L.card left.now) (R.card right.now) }
    {
        if fits(left.geometry(), right.geometry()) {
            Ok(())
        } else {
            Err(MakingFault::OutOfLimits)
        }
    }

    // Puts two flashes side by side.
    pub fn new(left: L, right: R) -> Pair<L, R>
        ensures lefts { result.left ≡ left }
        ensures rights { result.right ≡ right }
        ensures means { pair_card (L.card result.left) (R.card result.right) ≡ pair_card (L.card left) (R.card right) }
    {
        Pair { left, right }
    }

    // Gives both flashes back.
    pub fn release(self) -> (L, R)
        ensures lefts { result.0 ≡ self.left }
        ensures rights { result.1 ≡ self.right }
    {
        let Pair { left, right } = self;
        (left, right)
    }

    // The side of a block: none has one where the two flashes do not fit.
    fn locate(&self, block: PhysicalBlock) -> Result<Side, Refusal>
        ensures { result ≡ ok_or (side_in (L.card self.now.left) (R.card self.now.right) block.0) NoSuchBlock }
    {
        if fits(self.left.geometry(), self.right.geometry()) {
            Ok(side_of(block))
        } else {
            Err(Refusal::NoSuchBlock)
        }
    }
}

impl<L: Flash, R: Flash> Flash for Pair<L, R> {
    ghost card = { λ s. pair_card (L.card s.left) (R.card s.right) };

    fn geometry(&self) -> Geometry {
        let left = self.left.geometry();
        if !fits(left, self.right.geometry()) {
            return Geometry::WITHOUT_BLOCKS;
        }
        Geometry {
            blocks: 2 * left.blocks,
            ..left
        }
    }

    fn floor(&self, block: PhysicalBlock) -> usize {
        self.locate(block).map_or(0, |side| match side {
            Side::Left(below) => self.left.floor(below),
            Side::Right(below) => self.right.floor(below),
        })
    }

    fn erase_count(&self, block: PhysicalBlock) -> u32 {
        self.locate(block).map_or(0, |side| match side {
            Side::Left(below) => self.left.erase_count(below),
            Side::Right(below) => self.right.erase_count(below),
        })
    }

    fn program(&mut self, block: PhysicalBlock, page: usize, bytes: &[u8]) -> Result<(), Refusal> {
        match self.locate(block)? {
            Side::Left(below) => self.left.program(below, page, bytes),
            Side::Right(below) => self.right.program(below, page, bytes),
        }
    }

    fn read(&self, block: PhysicalBlock, page: usize, into: &mut [u8]) -> Result<(), Refusal> {
        match self.locate(block)? {
            Side::Left(below) => self.left.read(below, page, into),
            Side::Right(below) => self.right.read(below, page, into),
        }
    }

    fn erase(&mut self, block: PhysicalBlock) -> Result<(), Refusal> {
        match self.locate(block)? {
            Side::Left(below) => self.left.erase(below),
            Side::Right(below) => self.right.erase(below),
        }
    }
}
