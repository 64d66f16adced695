//! The places in a JSON text, by what may come next (RFC 8259).

/// Between values, keys and what parts them (sections 4 and 5). Space may stand in each.
#[derive(Clone, Copy)]
pub(crate) enum Gap {
    Value,
    /// An item, or the end of an array that has none.
    FirstItem,
    /// A key, or the end of an object that has none.
    FirstKey,
    Key,
    Colon,
    /// A comma, or the end of what is open.
    AfterValue,
}

/// Where an escape may continue in more than one way (section 7).
#[derive(Clone, Copy)]
pub(crate) enum Escape {
    AfterBackslash,
    /// Before the four digits of a code unit.
    Unit,
    /// The second digit after a `d`: d800 to dbff are the first half of a pair.
    AfterD,
}

/// Bytes of which each has its class: the rest of a word (section 3) or of an escape.
#[derive(Clone, Copy)]
pub(crate) enum Row {
    True,
    False,
    Null,
    /// The last three digits of a code unit.
    Digits,
    /// The last two digits of the first half of a pair, and the second half, dc00 to dfff, up to
    /// its last two digits.
    Pair,
}

/// What a byte of a row may be.
#[derive(Clone, Copy)]
pub(crate) enum Class {
    Byte(u8),
    Digit,
    D,
    CToF,
}

/// Inside a number (section 6).
#[derive(Clone, Copy)]
pub(crate) enum Number {
    AfterMinus,
    AfterZero,
    Whole,
    AfterPoint,
    Fraction,
    AfterE,
    AfterSign,
    Exponent,
}

/// A place in a JSON text; those inside a string or a row name the gap after the string or word.
#[derive(Clone, Copy)]
pub(crate) enum Place {
    Gap(Gap),
    Text(Gap),
    Escape(Escape, Gap),
    /// Behind so many bytes of a row.
    Row(Row, usize, Gap),
    Number(Number),
}

/// What is open around a place.
#[derive(Clone, Copy)]
pub(crate) enum Around {
    Array,
    Object,
}

/// What a byte leads to.
#[derive(Clone, Copy)]
pub(crate) enum Move {
    To(Place),
    /// An array or an object opens.
    Open(Around),
    /// What was opened last ends.
    Close,
}
