//! A journal's lines.
ghost use Rattle.std.specs.Prelude.{◌≡◌, ◌<◌, ◌≤◌, length, OnOk, OnErr};
ghost use Rattle.zp_streams.specs.Streams.{IsWritten, IsBegun};
ghost use Rattle.zp_text.specs.JournalText.{journal_text};

use crate::gathering::{GATHERED, make_room, write_gathered};
use crate::line::{ENTRY_LINE, push_entry};
use zp_info::TextBuffer;
use zp_journal::Journal;
use zp_model::LONGEST_NAME;
use zp_streams::{WriteFault, Writer};

/// Writes the line of each entry of the zone of this name, the oldest first, numbered from 1.
pub fn write_journal<W: Writer>(
    writer: &mut W,
    name: &str,
    journal: &Journal,
) -> Result<(), WriteFault>
    requires { length name.now ≤ LONGEST_NAME }
    ensures ok { OnOk result (IsWritten (W.contents writer.old) (W.contents writer.new) (journal_text name.now journal.now.entries)) }
    ensures calm { OnOk result (W.failures writer.new ≡ W.failures writer.old) }
    ensures err { OnErr result (IsBegun (W.contents writer.old) (W.contents writer.new) (journal_text name.now journal.now.entries)) }
    ensures failed { OnErr result (W.failures writer.old < W.failures writer.new) }
{
    let mut text: TextBuffer<GATHERED> = TextBuffer::new();
    for at in 0..journal.len() {
        make_room(writer, &mut text, ENTRY_LINE)?;
        push_entry(&mut text, name, at + 1, journal.entry(at + 1));
    }
    write_gathered(writer, text.as_bytes())
}
