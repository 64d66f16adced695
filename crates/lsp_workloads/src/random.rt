//! Numbers that a seed determines.
ghost use Rattle.std.specs.Prelude.{◌<◌, ◌≤◌};

/// A generator of numbers, by shifts and exclusive ors (Marsaglia's xorshift).
#[derive(Clone, Copy)]
pub(crate) struct Random {
    state: u64,
}

impl Random {
    /// The generator of this seed.
    pub(crate) fn new(seed: u32) -> Random {
        let mut random = Random {
            state: (seed as u64) << 20 | 88_172,
        };
        for _ in 0..16 {
            random.next();
        }
        random
    }

    fn next(&mut self) -> u64 {
        let mut state = self.state;
        state ^= state << 13;
        state ^= state >> 7;
        state ^= state << 17;
        self.state = state;
        state >> 16
    }

    /// A number below this one.
    pub(crate) fn below(&mut self, bound: usize) -> usize
        requires { 0 < bound }
        ensures { result < bound }
    {
        (self.next() % bound as u64) as usize
    }

    /// A number from `low` up to `high`, or `low` where `high` is less.
    pub(crate) fn between(&mut self, low: usize, high: usize) -> usize {
        low.saturating_add(self.below(high.saturating_sub(low).max(1)))
    }

    /// Whether something happens that happens this many times in a thousand.
    pub(crate) fn happens(&mut self, in_thousand: usize) -> bool {
        self.below(1_000) < in_thousand
    }
}
