//! Maps by the ids of requests.
ghost use Rattle.std.specs.Prelude.{◌≡◌, None, OnOk, Some, if◌then◌else◌};
ghost use Rattle.lsp_rpc.specs.Ident.{id_view, same_id};
ghost use Rattle.lsp_rpc.specs.declared.message.Id.{Id as AnId};
ghost use Rattle.lsp_uris.specs.Held.{asked_in};

use indexmap::IndexMap;
use lsp_rpc::{Id, Result, copy_id};

/// Holds a value of a request, in place of the one that was held of it, if any.
///
/// # Errors
/// `Memory` where memory was refused.
pub fn put<V: Drop>(map: &mut IndexMap<Id, V>, id: &Id, value: V) -> Result<()>
    ensures { OnOk result ((k : AnId) → asked_in map.new.entries (id_view k)
        ≡ (if same_id (id_view id.now) (id_view k) then Some value else asked_in map.old.entries
        (id_view k))) }
{
    let key = copy_id(id)?;
    map.insert(key, value)?;
    Ok(())
}

/// Takes away what is held of a request, if anything is.
pub fn forget<V: Drop>(map: &mut IndexMap<Id, V>, id: &Id)
    ensures { (k : AnId) → asked_in map.new.entries (id_view k)
        ≡ (if same_id (id_view id.now) (id_view k) then None else asked_in map.old.entries
        (id_view k)) }
{
    let _ = map.swap_remove(id);
}
