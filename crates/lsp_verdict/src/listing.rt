//! Which offences are listed.

/// Which offences are listed.
#[derive(Clone, Copy, Debug, PartialEq, Eq)]
pub enum Listing {
    /// Those that follow from no other.
    Causes,
    /// All.
    Every,
}
