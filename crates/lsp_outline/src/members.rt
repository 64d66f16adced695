//! Objects read without a tree of values: the members that are wanted are gathered as they come,
//! and the others are skipped.
ghost use Rattle.std.specs.Prelude.{◌≡◌, ◌^◌, ℕ, ◌<◌, ◌≤◌, length, pos, Some, IfSome, option_map};
ghost use Rattle.std.specs.Prelude.{string_bytes};
ghost use Rattle.serde_json.specs.Data.{Data, Members, object, string, no_members, put};
ghost use Rattle.serde_json.specs.Find.{as_str};
ghost use Rattle.serde_json.specs.Read.{read as read_text};
ghost use Rattle.lsp_rpc.specs.Ident.{id_view};
ghost use Rattle.lsp_rpc.specs.Params.{if_given};
ghost use Rattle.lsp_rpc.specs.Shape.{as_id, as_integer, unless_null};
ghost use Rattle.lsp_walk.specs.Walk.{IsValue, AreMembers};

use crate::negative_numbers::negative_at;
use lsp_rpc::Id;
use lsp_walk::{
    MAX_DEPTH, byte_at, key, literal_end, natural_at, plain_string, spaces_end, string_copy,
};
use std::alloc::Global;

/// What is wanted of an object's members. Of members with one name the last counts.
pub(crate) trait Gathered: Drop {
    /// What the members leave.
    ghost gathers: { Members → Self → Type 0 };

    /// Nothing gathered yet.
    fn none() -> Self
        ensures { gathers no_members result };

    /// Takes the member of this name, whose value begins there, and gives where that ends. `None`
    /// where the value is not as wanted.
    fn take(
        &mut self,
        alloc: Global,
        name: &str,
        text: &str,
        from: usize,
        depth: usize,
    ) -> Option<usize>
        requires { from ≤ length text.now }
        ensures { IfSome result (λ end. (d : Data) × IsValue depth text.now from end d
            × ((ms : Members) → gathers ms self.old → gathers (put name.now d ms) self.new)) };
}

/// Keeps what is read of a member in its field, and gives where its value ends. `None` where it is
/// not as wanted.
macro_rules! keep {
    ($parts:ident.$field:ident = Some($read:expr)) => {{
        let (value, end) = $read?;
        $parts.$field = Some(value);
        Some(end)
    }};
    ($parts:ident.$field:ident = $read:expr) => {{
        let (value, end) = $read?;
        $parts.$field = value;
        Some(end)
    }};
}

pub(crate) use keep;

/// Gathers the members of the object whose brace is just before that place, and gives its end.
#[inline(always)]
fn rest_of_object<T: Gathered>(
    alloc: Global,
    text: &str,
    from: usize,
    depth: usize,
    gathered: &mut T,
) -> Option<usize>
    requires from { from ≤ length text.now }
    requires none { T.gathers no_members gathered.old }
    ensures { IfSome result (λ end. (ms : Members) × AreMembers depth text.now from end ms
        × T.gathers ms gathered.new) }
{
    let bytes = text.as_bytes();
    let mut at = spaces_end(bytes, from);
    if byte_at(bytes, at) == b'}' {
        return Some(at + 1);
    }
    'members: loop {
        let (name, begin) = key(text, at)?;
        let end = gathered.take(alloc, name, text, begin, depth)?;
        let next = spaces_end(bytes, end);
        let mark = byte_at(bytes, next);
        if mark == b'}' {
            return Some(next + 1);
        }
        if mark != b',' {
            return None;
        }
        at = spaces_end(bytes, next + 1);
    }
}

/// Gathers the members of the object that begins there, and gives where it ends. `None` where a
/// member is not as wanted.
#[inline(always)]
pub(crate) fn object_into<T: Gathered>(
    alloc: Global,
    text: &str,
    from: usize,
    depth: usize,
    gathered: &mut T,
) -> Option<usize>
    requires from { from ≤ length text.now }
    requires none { T.gathers no_members gathered.old }
    ensures { IfSome result (λ end. (ms : Members) × IsValue depth text.now from end (object ms)
        × T.gathers ms gathered.new) }
{
    if depth == 0 || byte_at(text.as_bytes(), from) != b'{' {
        return None;
    }
    rest_of_object(alloc, text, from + 1, depth - 1, gathered)
}

/// What is gathered of the object that begins there, and where it ends.
#[inline(always)]
pub(crate) fn object_at<T: Gathered>(
    alloc: Global,
    text: &str,
    from: usize,
    depth: usize,
) -> Option<(T, usize)>
    requires { from ≤ length text.now }
    ensures { IfSome result (λ r. (ms : Members) × IsValue depth text.now from r.1 (object ms)
        × T.gathers ms r.0) }
{
    let mut gathered = T::none();
    let end = object_into(alloc, text, from, depth, &mut gathered)?;
    Some((gathered, end))
}

/// Gathers the members of the object that the text is. `None` where a member is not as wanted. It
/// is not inlined, so that what is gathered stays in one place in memory.
#[inline(never)]
pub(crate) fn text_into<T: Gathered>(alloc: Global, text: &str, gathered: &mut T) -> Option<()>
    requires { T.gathers no_members gathered.old }
    ensures { IfSome result (λ _. (ms : Members) × (read_text text.now ≡ Some (object ms))
        × T.gathers ms gathered.new) }
{
    let bytes = text.as_bytes();
    let from = spaces_end(bytes, 0);
    let end = object_into(alloc, text, from, MAX_DEPTH, gathered)?;
    if spaces_end(bytes, end) < bytes.len() {
        return None;
    }
    Some(())
}

/// Where the string that begins there ends, where it is this one.
#[inline(always)]
pub(crate) fn given_text(text: &str, from: usize, wanted: &str) -> Option<usize>
    requires { from ≤ length text.now }
    ensures { IfSome result (λ end.
        (depth : ℕ) → IsValue depth text.now from end (string wanted.now)) }
{
    let (found, end) = plain_string(text, from)?;
    if found == wanted { Some(end) } else { None }
}

/// The integer from 0 to 2,147,483,647 that begins there (LSP 3.17, Base Types), and where it ends.
#[inline(always)]
pub(crate) fn uinteger_at(text: &str, from: usize) -> Option<(u32, usize)>
    requires { from ≤ length text.now }
    ensures read { IfSome result (λ r. (d : Data)
        × ((depth : ℕ) → IsValue depth text.now from r.1 d) × (as_integer d ≡ Some (pos r.0))) }
    ensures fits { IfSome result (λ r. r.0 < 2 ^ 31) }
{
    let (n, end) = natural_at(text.as_bytes(), from)?;
    if n < 1 << 31 {
        Some((n as u32, end))
    } else {
        None
    }
}

/// The string that begins there, where it is not null, copied, and where it ends.
pub(crate) fn text_unless_null_at(
    alloc: Global,
    text: &str,
    from: usize,
) -> Option<(Option<String>, usize)>
    requires { from ≤ length text.now }
    ensures { IfSome result (λ r. (d : Data) × ((depth : ℕ) → IsValue depth text.now from r.1 d)
        × (if_given as_str (unless_null d) ≡ Some (option_map (λ s. string_bytes s) r.0))) }
{
    let bytes = text.as_bytes();
    if byte_at(bytes, from) == b'n' {
        let end = literal_end(bytes, from, b"null")?;
        return Some((None, end));
    }
    let (copy, end) = string_copy(alloc, text, from)?;
    Some((Some(copy), end))
}

/// The integer of 32 bits that begins there, and where it ends.
pub(crate) fn integer_at(text: &str, from: usize) -> Option<(i32, usize)>
    requires { from ≤ length text.now }
    ensures { IfSome result (λ r. (d : Data) × ((depth : ℕ) → IsValue depth text.now from r.1 d)
        × (as_integer d ≡ Some r.0)) }
{
    if byte_at(text.as_bytes(), from) == b'-' {
        return negative_at(text.as_bytes(), from);
    }
    let (n, end) = uinteger_at(text, from)?;
    Some((n as i32, end))
}

/// The id that begins there, a string or an integer of 32 bits, and where it ends.
pub(crate) fn id_at(alloc: Global, text: &str, from: usize) -> Option<(Id, usize)>
    requires { from ≤ length text.now }
    ensures { IfSome result (λ r. (d : Data) × ((depth : ℕ) → IsValue depth text.now from r.1 d)
        × (as_id d ≡ Some (id_view r.0))) }
{
    if byte_at(text.as_bytes(), from) == b'"' {
        let (copy, end) = string_copy(alloc, text, from)?;
        return Some((Id::Text(copy), end));
    }
    let (n, end) = integer_at(text, from)?;
    Some((Id::Number(n), end))
}
