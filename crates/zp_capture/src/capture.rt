//! What a capture says beside its events.
ghost use Rattle.std.specs.Prelude.{◌≡◌, ◌↔◌, false, IsTrue, OnOk};
ghost use Rattle.zp_capture.specs.MachineLines.{BeginsPart, IsNoted, IsToldWithin, cpus_with, nothing_told};

use crate::zone_info::{MemoryZone, ZoneInfo};
use std::alloc::{AllocError, Global};
use std::marker::Model;
use zp_events::labelled_number;

/// What begins a part of a capture, and the part that has the kernel's free blocks when the events were over.
const PART: &[u8] = b"== ";

const AFTERWARDS: &[u8] = b"== buddyinfo after";

/// The most bytes of that part which are kept: a hundred zones fit.
const MOST_AFTERWARDS: usize = 16_384;

/// What the lines that are no page events say of the machine. Contracts do not see the kernel's own `/proc/buddyinfo`.
#[derive(Drop)]
pub struct Capture {
    zones: ZoneInfo,
    cpus: u32,
    is_afterwards: bool,
    afterwards: Vec<u8>,
}

impl Model for Capture {
    ghost use Rattle.zp_capture.specs.MachineLines.{Told};

    ghost Value = { Told };

    ghost view = { λ c. record { zones = c.zones; cpus = c.cpus; is_afterwards = c.is_afterwards } };
}

/// Whether a line begins a part of a capture.
fn begins_part(line: &[u8]) -> bool
    ensures { IsTrue result ↔ BeginsPart line.now }
{
    line.starts_with(PART)
}

/// How many CPUs there are with that of this number.
fn cpus_with(cpus: u32, number: u64) -> u32
    ensures { result ≡ cpus_with cpus number }
{
    let least = u32::try_from(number).unwrap_or(u32::MAX).saturating_add(1);
    cpus.max(least)
}

impl Capture {
    /// Of no line.
    pub fn new(alloc: Global) -> Capture
        ensures { result ≡ nothing_told }
    {
        Capture {
            zones: ZoneInfo::new(alloc),
            cpus: 0,
            is_afterwards: false,
            afterwards: Vec::new(alloc),
        }
    }

    /// The zones that the text describes whole.
    pub fn zones(&self) -> &[MemoryZone]
        ensures { result.now ≡ self.now.zones.zones }
    {
        self.zones.zones()
    }

    /// How many CPUs have lists of pages of a zone; 0 where the capture does not say.
    pub fn cpus(&self) -> u32
        ensures { result ≡ self.now.cpus }
    {
        self.cpus
    }

    /// The lines of the kernel's own `/proc/buddyinfo` when the events were over, where the capture has them.
    pub fn afterwards(&self) -> &[u8] {
        &self.afterwards
    }

    /// One line more.
    pub fn note(&mut self, line: &[u8]) -> Result<(), AllocError>
        ensures noted { OnOk result (IsNoted self.old line.now self.new) }
    {
        if begins_part(line) {
            self.is_afterwards = line == AFTERWARDS;
            return Ok(());
        }
        if self.is_afterwards {
            return self.note_afterwards(line);
        }
        self.note_told(line)
    }

    /// A line more that may be about the machine.
    fn note_told(&mut self, line: &[u8]) -> Result<(), AllocError>
        ensures told { OnOk result (IsToldWithin false self.old line.now self.new) }
    {
        let Some(cpu) = labelled_number(line, b"cpu:") else {
            return self.zones.note(line);
        };
        self.cpus = cpus_with(self.cpus, cpu);
        Ok(())
    }

    /// A line more of the kernel's free blocks.
    fn note_afterwards(&mut self, line: &[u8]) -> Result<(), AllocError>
        ensures { self.new ≡ self.old }
    {
        if self.afterwards.len().saturating_add(line.len()) < MOST_AFTERWARDS {
            self.afterwards.extend_from_slice(line)?;
            self.afterwards.push(b'\n')?;
        }
        Ok(())
    }
}
