//! Lists of which the last items are held.
ghost use Rattle.std.specs.Prelude.{◌≡◌, ◌++◌, ◌∷◌, [], OnOk};
ghost use Rattle.lsp_trail.specs.History.{with_room};

use lsp_rpc::Result;
use std::collections::VecDeque;

/// Adds an item after the others, of which the last ones stay: so many are held with it at most.
///
/// # Errors
/// `Memory` where memory was refused; the first item may be gone then.
pub fn push_within<T: Drop>(held: &mut VecDeque<T>, most: usize, item: T) -> Result<()>
    ensures { OnOk result (held.new.items ≡ with_room most held.old.items ++ item ∷ []) }
{
    if held.len() >= most {
        let _ = held.pop_front();
    }
    held.push_back(item)?;
    Ok(())
}
