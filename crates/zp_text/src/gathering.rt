//! Text that is gathered before it is written, so that a writer is called once for many lines.
ghost use Rattle.std.specs.Prelude.{◌≡◌, ◌<◌, ◌≤◌, ◌+◌, ◌↔◌, ℕ, [], length, take, true, false, IsTrue, OnOk, OnErr};
ghost use Rattle.zp_streams.specs.Streams.{IsWritten, IsBegun};
ghost use Rattle.zp_text.specs.Gathering.{IsGathered, IsLineStart, IsStopped};

use zp_info::TextBuffer;
use zp_streams::{WriteFault, Writer, write_pieces};

/// The most bytes that are held back: some hundred lines, so that a device is asked seldom and little is in hand when it fails.
pub const GATHERED: usize = 8192;

/// Makes room for so many bytes more: writes the text where it leaves less.
pub fn make_room<W: Writer, const CAP: usize>(
    writer: &mut W,
    text: &mut TextBuffer<CAP>,
    room: usize,
) -> Result<(), WriteFault>
    requires { room ≤ CAP }
    ensures ok { OnOk result (IsGathered (W.contents writer.old) (W.contents writer.new) text.old text.new []) }
    ensures room { OnOk result (length text.new + room ≤ CAP) }
    ensures calm { OnOk result (W.failures writer.new ≡ W.failures writer.old) }
    ensures err { OnErr result (IsBegun (W.contents writer.old) (W.contents writer.new) text.old) }
    ensures failed { OnErr result (W.failures writer.old < W.failures writer.new) }
{
    if text.len() > CAP - room {
        write_gathered(writer, text.as_bytes())?;
        text.clear();
    }
    Ok(())
}

/// Writes a gathered text in one piece. A writer may refuse a piece that is too long for it, and take the lines in it: where it stops
/// at the end of a line, and more than one is left, they go one by one until one is refused. So a fault leaves as much written as if no
/// text were gathered.
pub fn write_gathered<W: Writer>(writer: &mut W, text: &[u8]) -> Result<(), WriteFault>
    ensures ok { OnOk result (IsWritten (W.contents writer.old) (W.contents writer.new) text.now) }
    ensures calm { OnOk result (W.failures writer.new ≡ W.failures writer.old) }
    ensures err { OnErr result (IsBegun (W.contents writer.old) (W.contents writer.new) text.now) }
    ensures failed { OnErr result (W.failures writer.old < W.failures writer.new) }
    ensures stopped { OnErr result (IsStopped (W.contents writer.old) (W.contents writer.new) (W.failures writer.old) (W.failures writer.new) text.now) }
{
    let taken = write_pieces(writer, text);
    if taken == text.len() {
        return Ok(());
    }
    if has_lines(text, taken) {
        write_lines(writer, &text[taken..]);
    }
    Err(WriteFault)
}

/// Writes the lines of a text one by one until one is refused, and says how many bytes were taken.
#[cold]
#[inline(never)]
fn write_lines<W: Writer>(writer: &mut W, text: &[u8]) -> usize
    ensures within { result ≤ length text.now }
    ensures written { IsWritten (W.contents writer.old) (W.contents writer.new) (take result text.now) }
    ensures calm { result ≡ length text.now → W.failures writer.new ≡ W.failures writer.old }
    ensures failed { result < length text.now → W.failures writer.new ≡ W.failures writer.old + 1 }
{
    let mut at = 0;
    'lines: while at < text.len() {
        let end = next_line(text, at);
        at += write_pieces(writer, &text[at..end]);
        if at < end {
            return at;
        }
    }
    at
}

/// Whether more than one line is left of a text, behind the end of one.
fn has_lines(text: &[u8], at: usize) -> bool
    requires { at < length text.now }
    ensures start { result ≡ true → IsLineStart text.now at }
    ensures one { result ≡ false → IsLineStart text.now at → (k : ℕ) → at < k → k < length text.now → IsLineStart text.now k → ⊥ }
{
    is_line_start(text, at) && next_line(text, at) < text.len()
}

/// Where the next line of a text begins, or the text ends.
fn next_line(text: &[u8], at: usize) -> usize
    requires { at < length text.now }
    ensures behind { at < result }
    ensures within { result ≤ length text.now }
    ensures next { (k : ℕ) → at < k → k < result → IsLineStart text.now k → ⊥ }
    ensures start { result < length text.now → IsLineStart text.now result }
{
    let mut end = at + 1;
    'bytes: while end < text.len() && !is_line_start(text, end) {
        end += 1;
    }
    end
}

/// Whether a line of a text begins at this place.
fn is_line_start(text: &[u8], at: usize) -> bool
    requires { at ≤ length text.now }
    ensures { IsTrue result ↔ IsLineStart text.now at }
{
    at == 0 || text[at - 1] == b'\n'
}
