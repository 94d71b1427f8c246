ghost use Rattle.std.specs.Prelude.{◌≡◌};
ghost use Rattle.flash.specs.Limits.{within_limits};

// The measures of a flash, which never change.
#[derive(Clone, Copy, PartialEq, Eq, Debug)]
pub struct Geometry {
    // blocks of the flash
    pub blocks: u16,
    // pages of a block
    pub pages: usize,
    // bytes of a page
    pub size: usize,
    // how often a block may be erased
    pub endurance: u32,
}

impl Geometry {
    // The measures of the flash without blocks.
    pub const WITHOUT_BLOCKS: Geometry = Geometry {
        blocks: 0,
        pages: 2,
        size: 4,
        endurance: 1,
    };

    // Whether each measure is one that a flash may have.
    pub fn within_limits(self) -> bool
        ensures { result ≡ within_limits self }
    {
        self.blocks <= 256
            && self.pages >= 2
            && self.pages <= 64
            && self.size >= 4
            && self.size <= 4096
            && self.endurance >= 1
            && self.endurance <= 1_000_000
    }
}
