// The number of a data block, as the user of the card counts them.
// A flash block has the type `PhysicalBlock`, so that no call takes one for the other.
#[derive(Clone, Copy, PartialEq, Eq, Debug)]
pub struct LogicalBlock(pub u8);
