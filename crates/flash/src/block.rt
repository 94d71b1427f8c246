// The number of a block of a flash, counted from 0.
// It is a type of its own, so that no call takes another kind of number for it.
#[derive(Clone, Copy, PartialEq, Eq, Debug)]
pub struct PhysicalBlock(pub u16);
