//! Contents as the records of a log.
ghost use Rattle.std.specs.Prelude.{◌≡◌, ◌<◌, ◌++◌, OnOk, codes, decimal, string_bytes};
ghost use Rattle.std.specs.List.{flat_map};
ghost use Rattle.lsp_frame.specs.Header.{blank_line};
ghost use Rattle.lsp_replay.specs.Common.{canonical, spelling, Tells, Writes};
ghost use Rattle.lsp_extract.specs.Normal.{chunks};

use itoa::Buffer;
use lsp_frame::{Sink, WriteFault};
use lsp_log::write_chunk;
use lsp_rpc::{Result, Side};
use lsp_verdict::RunFault;

/// Writes the canonical frame of a content (LSP 3.17, "Base Protocol") as records of its side, each
/// of which is full at this many bytes but for the last. Its header part is made in `head`, and the
/// content is written from where it stands.
pub(crate) fn write_content<W: Sink>(
    writer: &mut W,
    head: &mut String,
    size: usize,
    side: Side,
    content: &[u8],
) -> Result<(), RunFault>
    requires { 0 < size }
    ensures { Tells (W.told writer.old) (W.told writer.new)
        (flat_map spelling (chunks size side (canonical content.now))) result }
{
    fill_head(head, content.len())?;
    write_cut(writer, side, size, head.as_bytes(), content)?;
    Ok(())
}

/// Makes the text the header part of the canonical frame of a content of this length.
fn fill_head(head: &mut String, len: usize) -> Result<()>
    ensures { OnOk result (string_bytes head.new ≡ codes "Content-Length: " ++ decimal len
        ++ blank_line) }
{
    head.clear();
    head.push_str("Content-Length: ")?;
    head.push_str(Buffer::new().format(len))?;
    head.push_str("\r\n\r\n")?;
    Ok(())
}

/// Writes bytes that are in two parts as records of a side.
fn write_cut<W: Sink>(
    writer: &mut W,
    side: Side,
    size: usize,
    front: &[u8],
    back: &[u8],
) -> Result<(), WriteFault>
    requires { 0 < size }
    ensures { Writes (W.told writer.old)
        (W.told writer.new)
        result (flat_map spelling (chunks size side (front.now ++ back.now))) }
{
    let mut front = front;
    let mut back = back;
    loop {
        let first = front.len().min(size);
        let second = back.len().min(size - first);
        if first + second == 0 {
            return Ok(());
        }
        write_chunk(writer, side, &front[..first], &back[..second])?;
        front = &front[first..];
        back = &back[second..];
    }
}
