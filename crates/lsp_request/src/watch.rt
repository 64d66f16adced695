//! Who watches a run.

/// Who watches a run, and is told what it does with its input and its output.
pub trait Watch: Drop {
    /// Bytes of the input were read, this many.
    fn advance(&self, count: usize);

    /// Bytes are about to be written.
    fn make_way(&self);
}

/// Nobody.
#[derive(Drop)]
pub struct Unwatched;

impl Watch for Unwatched {
    fn advance(&self, _count: usize) {}

    fn make_way(&self) {}
}
