// What carrying out one record took.
#[derive(Clone, Copy, Default)]
pub(crate) struct Step {
    // bytes of its answer
    pub(crate) written: usize,
    // erases that the answer tells
    pub(crate) erases: usize,
    // 1 for an accepted large group
    pub(crate) large: usize,
    // the pages of an accepted group that was not large
    pub(crate) small: usize,
}
