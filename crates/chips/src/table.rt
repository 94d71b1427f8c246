// What a plain chip keeps of a block besides its pages.
#[derive(Clone, Copy, Default)]
pub struct Entry {
    // the lowest page that may still be programmed
    pub floor: usize,
    // how often the block was erased
    pub erases: u32,
}
