//! Info lines, written.
ghost use Rattle.std.specs.Prelude.{◌≡◌, ◌<◌, OnOk, OnErr};
ghost use Rattle.zp_model.specs.Info.{counts_of, info_line};
ghost use Rattle.zp_model.specs.Naming.{IsName};
ghost use Rattle.zp_streams.specs.Streams.{IsWritten, IsBegun};

use zp_info::{INFO_LINE, TextBuffer, push_counts};
use zp_model::{Counts, Largest};
use zp_streams::{WriteFault, Writer, write_all};
use zp_zone::Zone;

/// Writes the info line of a zone of this name and largest order with these counts, as `/proc/buddyinfo` shows it.
pub fn write_counts<W: Writer>(
    writer: &mut W,
    name: &str,
    largest: Largest,
    counts: &Counts,
) -> Result<(), WriteFault>
    requires { IsName name.now }
    ensures ok { OnOk result (IsWritten (W.contents writer.old) (W.contents writer.new) (info_line name.now largest counts.now)) }
    ensures calm { OnOk result (W.failures writer.new ≡ W.failures writer.old) }
    ensures err { OnErr result (IsBegun (W.contents writer.old) (W.contents writer.new) (info_line name.now largest counts.now)) }
    ensures failed { OnErr result (W.failures writer.old < W.failures writer.new) }
{
    let mut line: TextBuffer<INFO_LINE> = TextBuffer::new();
    push_counts(&mut line, name, largest, counts);
    write_all(writer, line.as_bytes())
}

/// Writes a zone's info line.
pub fn write_info<W: Writer>(zone: &Zone, writer: &mut W) -> Result<(), WriteFault>
    ensures ok { OnOk result (IsWritten (W.contents writer.old) (W.contents writer.new) (info_line zone.now.name zone.now.plain.area.largest (counts_of zone.now.plain.area.largest zone.now.plain.area.free))) }
    ensures calm { OnOk result (W.failures writer.new ≡ W.failures writer.old) }
    ensures err { OnErr result (IsBegun (W.contents writer.old) (W.contents writer.new) (info_line zone.now.name zone.now.plain.area.largest (counts_of zone.now.plain.area.largest zone.now.plain.area.free))) }
    ensures failed { OnErr result (W.failures writer.old < W.failures writer.new) }
{
    write_counts(writer, zone.name(), zone.largest(), &zone.counts())
}
