//! Positions in a text (LSP 3.17, "Text Documents").

/// The unit in which columns are counted: bytes of UTF-8, 16-bit units of UTF-16, or characters,
/// that is, Unicode scalar values (LSP 3.17, PositionEncodingKind).
#[derive(Clone, Copy, Debug, PartialEq, Eq)]
pub enum Encoding {
    Utf8,
    Utf16,
    Utf32,
}

/// A position in a text (LSP 3.17, Position). Lines and columns are counted from zero, columns in
/// units of the encoding that the session agreed on. `column` is the standard's `character`.
#[derive(Clone, Copy, Debug, PartialEq, Eq)]
pub struct Position {
    pub line: u32,
    pub column: u32,
}

/// A range of a text (LSP 3.17, Range): from `first` up to `second`, which is excluded.
#[derive(Clone, Copy, Debug, PartialEq, Eq)]
pub struct Span {
    pub first: Position,
    pub second: Position,
}
