//! Laws of frames and streams (LSP 3.17, "Base Protocol"), each the contract of a function that
//! does nothing.
ghost use Rattle.lsp_frame.specs.Laws.{NoFrameBeginsAnother, SomeReading, OneReading};
ghost use Rattle.lsp_frame.specs.Laws.{FramesComeFirst, ContentsStay, FaultStays, FrontStays};
ghost use Rattle.lsp_frame.specs.Laws.{CanonicalIsFrame, CanonicalIsRead};

/// No frame is the beginning of a longer one.
pub fn no_frame_begins_another()
    ensures { NoFrameBeginsAnother }
{}

/// All bytes are a stream: frames with some contents, a rest that begins with no frame, and its
/// fault, if any.
pub fn some_reading()
    ensures { SomeReading }
{}

/// Bytes are the stream of one list of contents, one rest and one fault.
pub fn one_reading()
    ensures { OneReading }
{}

/// Frames that bytes begin with are the first of their stream, and what follows them is its
/// others.
pub fn frames_come_first()
    ensures { FramesComeFirst }
{}

/// Contents stay, whatever follows.
pub fn contents_stay()
    ensures { ContentsStay }
{}

/// A fault stays, and the contents before it, whatever follows.
pub fn fault_stays()
    ensures { FaultStays }
{}

/// What is shown of a header part that has a fault stays, whatever follows.
pub fn front_stays()
    ensures { FrontStays }
{}

/// The canonical frame of a content within the limits is a frame of it.
pub fn canonical_is_frame()
    ensures { CanonicalIsFrame }
{}

/// A stream that begins with the canonical frame of a content within the limits has that content
/// first, whatever follows.
pub fn canonical_is_read()
    ensures { CanonicalIsRead }
{}
