//! Who opens the zones of a capture at its first event, and looks on while its events are carried out.
ghost use Rattle.std.specs.Prelude.{◌≡◌, IfOk};
ghost use Rattle.zp_capture.specs.MachineLines.{IsNoted, nothing_told};
ghost use Rattle.zp_capture.specs.Summaries.{AreOpened};

use crate::capture::Capture;
use crate::counts_rows::{write_all_counts, write_heads};
use crate::fault::CaptureFault;
use crate::machine::{kernel_of, workers_of};
use crate::opening::ZoneSettings;
use crate::options::{EventOptions, Form};
use crate::plan::ZonePlan;
use crate::planning::plans_of;
use crate::samples::Samples;
use std::alloc::Global;
use std::io;
use std::io::Write;
use zp_events::PageEvent;
use zp_kernel::{Kernel, Onlooker};
use zp_progress::Progress;

/// How many events there are from one report of the progress to the next.
const STEP: u64 = 1_024;

/// What is noted of zones that are opened.
#[derive(Drop)]
pub struct Opened {
    pub plans: Vec<ZonePlan>,
    pub workers: u32,
    pub samples: Option<Samples>,
}

/// What is noted of a run.
#[derive(Drop)]
pub struct CaptureWatch<'a, W: Write + Drop, P: Progress + Drop> {
    alloc: Global,
    options: &'a EventOptions,
    pub capture: Capture,
    pub opened: Option<Opened>,
    /// Why no zones were opened.
    pub fault: Option<CaptureFault>,
    /// How many events there were.
    pub events: u64,
    pub writer: W,
    pub progress: P,
}

impl<'a, W: Write + Drop, P: Progress + Drop> CaptureWatch<'a, W, P> {
    /// Before the first line.
    pub fn new(
        alloc: Global,
        options: &'a EventOptions,
        writer: W,
        progress: P,
    ) -> CaptureWatch<'a, W, P>
        ensures options { result.options.now ≡ options.now }
        ensures told { result.capture ≡ nothing_told }
    {
        CaptureWatch {
            alloc,
            options,
            capture: Capture::new(alloc),
            opened: None,
            fault: None,
            events: 0,
            writer,
            progress,
        }
    }

    /// Opens the zones that are planned, and writes what stands before the first counts.
    fn open_zones(&mut self) -> Result<Kernel, CaptureFault>
        ensures { IfOk result (λ k. AreOpened self.old.options.now self.old.capture k) }
    {
        let options = self.options;
        let plans = plans_of(self.alloc, &options.plans, self.capture.zones())?;
        let settings = ZoneSettings {
            largest: options.largest,
            workers: workers_of(options.cpus, self.capture.cpus()),
            lists: options.lists,
        };
        let kernel = kernel_of(self.alloc, &plans, &settings)?;
        let samples = samples_of(self.alloc, options.form, plans.len())?;
        if let Form::Lines(_every) = options.form {
            write_heads(&mut self.writer, options.largest)?;
        }
        self.opened = Some(Opened {
            plans,
            workers: settings.workers,
            samples,
        });
        Ok(kernel)
    }

    /// Writes the counts, where they are due.
    fn write_due(&mut self, kernel: &Kernel) -> io::Result<()> {
        if let Form::Lines(every) = self.options.form {
            if self.events % every.max(1) == 0 {
                return write_all_counts(&mut self.writer, self.events, kernel.zones());
            }
        }
        Ok(())
    }

    /// Writes the counts at the end, where they are not written yet.
    pub fn write_last(&mut self, kernel: &Kernel) -> io::Result<()> {
        if let Form::Lines(every) = self.options.form {
            if self.events % every.max(1) != 0 {
                return write_all_counts(&mut self.writer, self.events, kernel.zones());
            }
        }
        Ok(())
    }
}

/// The samples of a chart, before the first event.
fn samples_of(alloc: Global, form: Form, zones: usize) -> Result<Option<Samples>, CaptureFault> {
    match form {
        Form::Chart => Ok(Some(Samples::new(alloc, zones)?)),
        Form::Table(_) | Form::Lines(_) => Ok(None),
    }
}

impl Opened {
    /// An event left the zones so.
    fn note(&mut self, kernel: &Kernel) -> io::Result<()> {
        if let Some(samples) = &mut self.samples {
            samples.note(kernel.zones())?;
        }
        Ok(())
    }
}

impl<W: Write + Drop, P: Progress + Drop> Onlooker for CaptureWatch<'_, W, P> {
    ghost hears = { λ w line v. (v.options.now ≡ w.options.now) × IsNoted w.capture line v.capture };

    ghost opens = { λ w k. AreOpened w.options.now w.capture k };

    fn open(&mut self) -> io::Result<Kernel> {
        match self.open_zones() {
            Ok(kernel) => Ok(kernel),
            Err(fault) => {
                self.fault = Some(fault);
                Err(io::ErrorKind::Other.into())
            }
        }
    }

    fn event(&mut self, _event: &PageEvent, kernel: &Kernel) -> io::Result<()> {
        self.events = self.events.saturating_add(1);
        if self.events % STEP == 0 {
            self.progress.past(self.events);
        }
        if let Some(opened) = &mut self.opened {
            opened.note(kernel)?;
        }
        self.write_due(kernel)
    }

    fn other(&mut self, line: &[u8]) -> io::Result<()> {
        self.capture.note(line)?;
        Ok(())
    }
}
