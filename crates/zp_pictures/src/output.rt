//! Writing a text that is whole in memory.
ghost use Rattle.std.specs.Prelude.{◌≡◌, ◌≤◌, length, take, IfErr, IfOk, OnErr, OnOk};
ghost use Rattle.std.specs.Io.KnownBytes.{Appends};
ghost use Rattle.zp_streams.specs.Streams.{IsBegun};

use crate::fault::PictureFault;
use std::io::{ErrorKind, Write};

/// Writes a beginning of a piece, and says how many bytes the writer took: none where it was interrupted.
fn write_piece<W: Write>(writer: &mut W, piece: &[u8]) -> Result<usize, PictureFault>
    ensures within { IfOk result (λ n. n ≤ length piece.now) }
    ensures ok { IfOk result (λ n. Appends (W.contents writer.old) (W.contents writer.new) (take n piece.now)) }
    ensures begun { OnErr result (IsBegun (W.contents writer.old) (W.contents writer.new) piece.now) }
    ensures why { IfErr result (λ e. e ≡ PictureFault.Write) }
{
    match writer.write(piece) {
        Ok(0) => Err(PictureFault::Write),
        Ok(count) => Ok(count),
        Err(fault) => {
            if fault.kind() == ErrorKind::Interrupted {
                Ok(0)
            } else {
                Err(PictureFault::Write)
            }
        }
    }
}

/// Writes all of a text; a write that is interrupted is tried again. A fault leaves a beginning of the text written.
pub fn write_text<W: Write>(writer: &mut W, text: &[u8]) -> Result<(), PictureFault>
    ensures ok { OnOk result (Appends (W.contents writer.old) (W.contents writer.new) text.now) }
    ensures begun { OnErr result (IsBegun (W.contents writer.old) (W.contents writer.new) text.now) }
    ensures why { IfErr result (λ e. e ≡ PictureFault.Write) }
{
    let mut at = 0;
    'pieces: for _ in 0..u64::MAX {
        if at >= text.len() {
            return Ok(());
        }
        match write_piece(writer, &text[at..]) {
            Ok(count) => at += count,
            Err(fault) => return Err(fault),
        }
    }
    Err(PictureFault::Write)
}
