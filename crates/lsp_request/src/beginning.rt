//! The first bytes of what is read.
ghost use Rattle.std.specs.Prelude.{◌≤◌};

/// The first bytes that an input gave, by which its kind can be told.
#[derive(Clone, Copy, Drop)]
pub struct Beginning {
    bytes: [u8; 32],
    count: usize,
    ghost in_range: { count ≤ 32 },
}

impl Beginning {
    ghost use Rattle.std.specs.Prelude.{◌≡◌, ◌++◌, [], take};
    ghost use Rattle.lsp_request.specs.Ports.{kept};

    /// Of an input that has given nothing yet.
    pub fn new() -> Beginning
        ensures { kept result ≡ [] }
    {
        Beginning {
            bytes: [0; 32],
            count: 0,
        }
    }

    /// The bytes: all that the input gave, or the first 32 of them.
    pub fn as_slice(&self) -> &[u8]
        ensures { result.now ≡ kept self.now }
    {
        &self.bytes[..self.count]
    }

    /// Keeps of these bytes, which the input gave next, as many as there is room for. Mostly there
    /// is none left.
    pub fn keep(&mut self, given: &[u8])
        ensures { kept self.new ≡ take 32 (kept self.old ++ given.now) }
    {
        if self.count == self.bytes.len() {
            return;
        }
        let end = self.count + (32 - self.count).min(given.len());
        self.bytes[self.count..end].copy_from_slice(&given[..end - self.count]);
        self.count = end;
    }
}
