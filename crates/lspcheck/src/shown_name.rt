//! The name of a file in a message.
use lsp_command::quoted_name;
use std::alloc::Global;
use std::fmt;

/// The name of a file as messages show it, so that no terminal takes a part of it for a command,
/// and nobody misses it: as JSON text where it has a control character, and where it is empty.
pub(crate) struct ShownName<'a> {
    name: &'a str,
    /// The JSON text, or `None` where memory for it was refused.
    quoted: Option<Option<String>>,
}

impl Drop for ShownName<'_> {
    fn drop(self) {
        let ShownName { name: _, quoted: _ } = self;
    }
}

impl<'a> ShownName<'a> {
    pub(crate) fn new(alloc: Global, name: &'a str) -> ShownName<'a> {
        ShownName {
            name,
            quoted: quoted_name(alloc, name).ok(),
        }
    }

    /// The text, where there was memory for it.
    pub(crate) fn as_str(&self) -> Option<&str> {
        match &self.quoted {
            Some(Some(quoted)) => Some(quoted.as_str()),
            Some(None) if self.name.is_empty() => Some("\"\""),
            Some(None) => Some(self.name),
            None => None,
        }
    }
}

impl fmt::Display for ShownName<'_> {
    fn fmt<W: fmt::Write>(&self, f: &mut fmt::Formatter<W>) -> fmt::Result {
        match self.as_str() {
            Some(text) => f.write_str(text),
            // Rust's escapes take no memory, unlike those of JSON.
            None => write!(f, "{:?}", self.name),
        }
    }
}
