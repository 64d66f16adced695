//! What is still tried while the values of a content are skipped.

/// After how many bytes blocks of numbers are tried again that were declined once.
const FEW: usize = 16;

/// Which fast forms are still tried in a content. What declined one is not asked again at every
/// value, since all of a content is mostly written by the same program.
#[derive(Drop)]
pub(crate) struct Tries {
    /// Whether positions and ranges are tried: until one begins as most do and goes on otherwise.
    pub(crate) places: bool,
    /// From which place on blocks of numbers are tried.
    blocks: usize,
    /// For how many bytes they are not, since they were declined: each time twice as many.
    wait: usize,
}

impl Tries {
    /// All are tried.
    pub(crate) fn new() -> Tries {
        Tries {
            places: true,
            blocks: 0,
            wait: 0,
        }
    }

    /// Whether blocks of numbers are tried there.
    #[inline(always)]
    pub(crate) fn blocks_at(&self, at: usize) -> bool {
        at >= self.blocks
    }

    /// Blocks of numbers were tried and passed the part between these places.
    #[inline(always)]
    pub(crate) fn tried_blocks(&mut self, from: usize, end: usize) {
        self.wait = if end > from {
            0
        } else {
            self.wait.saturating_mul(2).max(FEW)
        };
        self.blocks = end.saturating_add(self.wait);
    }
}
