//! Texts as lists of characters: the places that positions denote, and stores that are edited.
//!
//! [`TextStore`] says what a store of a text is, and [`change`] and [`change_all`] make the changes
//! of a `textDocument/didChange` in any of them. [`Findings`] are what of these does not fit the
//! text. [`Plain`] keeps a text in one `String`. [`measure`] counts characters and units of UTF-16,
//! [`first_difference`] tells where two texts first differ, and [`line_at`], [`width_of`],
//! [`char_inside`] and [`size_with`] read a text by its lines and columns.
//!
//! A store of one's own cuts lines with [`FirstLine`] and finds columns with [`offset_in_line`] and
//! [`offset_in_counted`]. One that keeps a text in pieces compares them with [`take_lines`],
//! [`after_front`] and [`same_back`], and says what does not fit with [`fit_by`], [`extent_past`]
//! and [`past_end_of`].
#![tactic(auto)]

mod changes;
mod columns;
mod counts;
mod cut;
mod difference;
mod findings;
mod lanes;
mod laws;
mod plain;
mod reading;
mod same;
mod store;
mod stretches;

pub use changes::{ChangeFault, change, change_all, change_noting};
pub use columns::{offset_in_counted, offset_in_line};
pub use counts::{TextCounts, measure};
pub use cut::FirstLine;
pub use difference::{Difference, first_difference, parting};
pub use findings::{
    Extent, Findings, Fit, OtherLength, PastEnd, extent_past, fit_by, is_no_other, past_end_of,
};
pub use laws::{
    characters_denote, exact_texts_are_equal, feeds_end_lines, line_ends_are_whole,
    lines_are_the_cut, lines_of_joined, one_difference, places_are_denoted, places_have_positions,
    positions_denote_one_place, positions_lie_inside, same_by_lines, same_texts,
};
pub use plain::Plain;
pub use reading::{char_inside, line_at, size_with, width_of};
pub use same::{
    LinesLeft, before_last_end, compared_lines, is_taken, same_lines, take_lines, without_last_end,
};
pub use store::{Place, TextStore};
pub use stretches::{after_front, same_back};

/// Why a change is refused: 605 a position inside a character, 606 a reversed span, 607 a text over
/// the limit.
pub type TextFault = lsp_types::Fault;
