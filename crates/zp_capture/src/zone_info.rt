//! The zones of a machine, as `/proc/zoneinfo` reports them.
ghost use Rattle.std.specs.Prelude.{◌≡◌, [], None, OnErr, OnOk};
ghost use Rattle.zp_capture.specs.MachineLines.{IsBegun, IsToldOf, IsZoneTold};

use std::alloc::{AllocError, Global};
use std::marker::Model;
use zp_events::{labelled_number, zone_head};
use zp_model::Name;

/// A zone of a machine.
#[derive(Clone, Copy, PartialEq, Eq, Debug, Drop)]
pub struct MemoryZone {
    pub node: u32,
    pub name: Name,
    /// Its first page frame.
    pub start: u64,
    /// The pages from its first to its last, with those that are not there.
    pub spanned: u64,
    /// Its least mark, in pages.
    pub min: u64,
}

/// The zones described so far, and what is known of the next.
#[derive(Drop)]
pub struct ZoneInfo {
    zones: Vec<MemoryZone>,
    next: Option<MemoryZone>,
}

impl Model for ZoneInfo {
    ghost use Rattle.zp_capture.specs.MachineLines.{ToldZones};

    ghost Value = { ToldZones };

    ghost view = { λ i. record { zones = i.zones.items; next = i.next } };
}

impl ZoneInfo {
    /// Of no zone.
    pub fn new(alloc: Global) -> ZoneInfo
        ensures { result ≡ record { zones = []; next = None } }
    {
        ZoneInfo {
            zones: Vec::new(alloc),
            next: None,
        }
    }

    /// The zones that are described whole, in the order of the lines. Linux gives no first frame of one without pages; here it is none.
    pub fn zones(&self) -> &[MemoryZone]
        ensures { result.now ≡ self.now.zones }
    {
        &self.zones
    }

    /// One line more. A zone begins with its heading and ends with its first frame; lines that say something else are passed over.
    pub fn note(&mut self, line: &[u8]) -> Result<(), AllocError>
        ensures noted { OnOk result (IsZoneTold self.old line.now self.new) }
        ensures left { OnErr result (self.new ≡ self.old) }
    {
        if let Some((node, name)) = zone_head(line) {
            self.next = begun(node, name);
            return Ok(());
        }
        let Some(zone) = self.next else {
            return Ok(());
        };
        if let Some(start) = labelled_number(line, b"start_pfn:") {
            self.zones.push(MemoryZone { start, ..zone })?;
            self.next = None;
            return Ok(());
        }
        self.next = Some(told(zone, line));
        Ok(())
    }
}

/// A zone of which only its node and its name are known. None where the name is not 1 to 8 letters or digits.
fn begun(node: u32, name: &[u8]) -> Option<MemoryZone>
    ensures { IsBegun node name.now result }
{
    Some(MemoryZone {
        node,
        name: Name::new(name)?,
        start: 0,
        spanned: 0,
        min: 0,
    })
}

/// The zone with what one of its lines says.
fn told(zone: MemoryZone, line: &[u8]) -> MemoryZone
    ensures { IsToldOf zone line.now result }
{
    if let Some(min) = labelled_number(line, b"min") {
        return MemoryZone { min, ..zone };
    }
    if let Some(spanned) = labelled_number(line, b"spanned") {
        return MemoryZone { spanned, ..zone };
    }
    zone
}
