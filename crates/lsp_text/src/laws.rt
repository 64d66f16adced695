//! Laws of the definitions. Each function has no code: its contract is the law.

ghost use Rattle.lsp_text.specs.Difference.{OneDifference, PlacesHavePositions};
ghost use Rattle.lsp_text.specs.InsideCharacter.{PositionsLieInside};
ghost use Rattle.lsp_text.specs.Lines.{LinesAreTheCut, LinesOfJoined};
ghost use Rattle.lsp_text.specs.Places.{PlacesAreDenoted, OnePlaceAtMost, NoneInsideLineEnd};
ghost use Rattle.lsp_text.specs.Places.{CharactersDenote};
ghost use Rattle.lsp_text.specs.SameText.{ExactTexts, FeedsEndLines, SameByLines, SameTexts};

/// Every text has exactly one cut into lines, as LSP 3.17, "Text Documents", has them: each line
/// but the last ends with CR LF, LF or CR, none has a line end inside, and no CR before an LF ends
/// a line by itself.
pub fn lines_are_the_cut()
    ensures { LinesAreTheCut }
{}

/// The law of re-cutting: where a text ends with a line end, and no CR at its end meets an LF, its
/// lines stay when a text follows, and that text's lines come after them.
pub fn lines_of_joined()
    ensures { LinesOfJoined }
{}

/// A position denotes exactly the place that is computed.
pub fn places_are_denoted()
    ensures { PlacesAreDenoted }
{}

/// A position of an encoding denotes at most one place.
pub fn positions_denote_one_place()
    ensures { OnePlaceAtMost }
{}

/// No position denotes the place inside a CR LF, which is one line end.
pub fn line_ends_are_whole()
    ensures { NoneInsideLineEnd }
{}

/// Where columns count characters (UTF-32), each position denotes a place.
pub fn characters_denote()
    ensures { CharactersDenote }
{}

/// Two texts are equal and nowhere first differ, or they first differ at exactly one place.
pub fn one_difference()
    ensures { OneDifference }
{}

/// The position of a place denotes it, unless the place lies between a CR and an LF, or the line's
/// number or the column is past 2^32 - 1.
pub fn places_have_positions()
    ensures { PlacesHavePositions }
{}

/// A position denotes no place exactly where it lies inside a character, and it lies inside at most
/// one.
pub fn positions_lie_inside()
    ensures { PositionsLieInside }
{}

/// Being the same, up to line ends or with them, is an equivalence of texts, and equal texts are
/// the same.
pub fn same_texts()
    ensures { SameTexts }
{}

/// Where line ends are ignored, two texts are the same exactly if their lines are, without their
/// ends and without an empty last one.
pub fn same_by_lines()
    ensures { SameByLines }
{}

/// Where line ends count, the same texts are equal.
pub fn exact_texts_are_equal()
    ensures { ExactTexts }
{}

/// Where line ends are ignored, an LF stands for the end of each line that has one, and no other
/// character changes.
pub fn feeds_end_lines()
    ensures { FeedsEndLines }
{}
