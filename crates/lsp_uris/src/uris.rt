//! Sets of URIs.
ghost use Rattle.std.specs.Prelude.{◌≡◌, false, List, ℕ, OnOk, if◌then◌else◌, true};
ghost use Rattle.std.specs.Str.{bytes_eq};
ghost use Rattle.lsp_uris.specs.Held.{has_uri};

use indexmap::IndexMap;
use lsp_rpc::Result;

/// A set of URIs, as they were sent.
pub type Uris = IndexMap<String, ()>;

/// Adds a URI.
///
/// # Errors
/// `Memory` where memory was refused.
pub fn add_uri(uris: &mut Uris, uri: &str) -> Result<()>
    ensures { OnOk result ((u : List ℕ) → has_uri uris.new.entries u
        ≡ (if bytes_eq uri.now u then true else has_uri uris.old.entries u)) }
{
    let key = String::from_str(*uris.allocator(), uri)?;
    uris.insert(key, ())?;
    Ok(())
}

/// Takes a URI away, if it is there.
pub fn forget_uri(uris: &mut Uris, uri: &str)
    ensures { (u : List ℕ) → has_uri uris.new.entries u
        ≡ (if bytes_eq uri.now u then false else has_uri uris.old.entries u) }
{
    let _ = uris.swap_remove(uri);
}
