//! The object of one of several logs.
ghost use Rattle.std.specs.Prelude.{◌≡◌, ◌++◌, OnOk, string_bytes};
ghost use Rattle.std.specs.List.{after_first, before_first};
ghost use Rattle.lsp_json.specs.Rows.{file_json, is_brace, is_line_end};

use crate::lines::push_json;
use lsp_rpc::{Result, push_quoted};

/// Adds the first object of a report, which begins with the name of the file that is reported on.
///
/// # Errors
/// `Memory` where memory was refused.
pub fn push_file_json(text: &mut String, file: &str, report: &str) -> Result<()>
    ensures { OnOk result (string_bytes text.new ≡ string_bytes text.old
        ++ file_json file.now report.now) }
{
    let mut objects = String::new(*text.allocator());
    push_json(&mut objects, report)?;
    text.push_str("{\"file\":")?;
    push_quoted(*text.allocator(), text, file)?;
    text.push_str(",")?;
    text.push_str(behind_brace(first_of(objects.as_str())))?;
    Ok(text.push_str("\n")?)
}

/// The first of these objects.
fn first_of(objects: &str) -> &str
    ensures { result.now ≡ before_first is_line_end objects.now }
{
    match objects.split_once('\n') {
        Some((first, _)) => first,
        None => objects,
    }
}

/// An object behind its brace.
fn behind_brace(object: &str) -> &str
    ensures { result.now ≡ after_first is_brace object.now }
{
    match object.split_once('{') {
        Some((_, members)) => members,
        None => "",
    }
}
