//! Readers of the boards beside a row's zones: they read counts with no lock.
ghost use Rattle.std.specs.Prelude.{◌≡◌};
ghost use Rattle.zonealloc.specs.BoardCalls.{IsEndReaderCall, IsReadCall, IsReaderCall, reader_number, reading_told};

use crate::answers::{BAD_ARGUMENT, BAD_HANDLE, BUSY, DONE, NO_BOARD, refused};
use crate::handles::{HeldReader, ReaderHandle, WorkerHandle, end_reader, put_reader, reader_of};
use std::alloc::Global;
use zp_counts::Reading;
use zp_gate::ReaderError;
use zp_model::{ORDERS, Refused};

/// How many free blocks of each order a zone had, how many free pages, and after how many requests.
#[repr(C)]
#[derive(Drop)]
pub struct ZoneReading {
    pub by_order: [u32; ORDERS],
    pub free: u32,
    pub place: u64,
}

/// A reader of a zone's board that has seen all that is published, in an empty handle.
#[unsafe(no_mangle)]
pub extern "C" fn zonealloc_reader(
    alloc: Global,
    worker: &mut WorkerHandle,
    zone: u32,
    reader: &mut ReaderHandle,
) -> u32
    ensures { IsReaderCall zone result reader.old.slot.value reader.new.slot.value worker.old.slot.value worker.new.slot.value }
{
    if !worker.is_live() || reader.is_live() {
        return BAD_HANDLE;
    }
    let held = worker.slot.held();
    match held.reader(zone as usize) {
        Ok(made) => match Box::new(alloc, made) {
            Ok(made) => {
                put_reader(reader, HeldReader { reader: made });
                DONE
            }
            Err(_) => refused(Refused::Memory),
        },
        Err(why) => number_of(why),
    }
}

/// The zone's counts as they were published, never older than this reader has seen. No zone is asked.
#[unsafe(no_mangle)]
pub extern "C" fn zonealloc_read(
    alloc: Global,
    reader: &mut ReaderHandle,
    reading: &mut ZoneReading,
) -> u32
    ensures { IsReadCall result reading.old reading.new reader.old.slot.value reader.new.slot.value }
{
    let Some(mut held) = reader_of(alloc, reader) else {
        return BAD_HANDLE;
    };
    let told = held.reader.read();
    put_reader(reader, held);
    *reading = reading_told(&told);
    DONE
}

/// Ends a reader, and frees its memory.
#[unsafe(no_mangle)]
pub extern "C" fn zonealloc_end_reader(alloc: Global, reader: &mut ReaderHandle) -> u32
    ensures { IsEndReaderCall result reader.old.slot.value reader.new.slot.value }
{
    let Some(held) = reader_of(alloc, reader) else {
        return BAD_HANDLE;
    };
    end_reader(held);
    DONE
}

/// The number of why there is no reader.
fn number_of(why: ReaderError) -> u32
    ensures { result ≡ reader_number why }
{
    match why {
        ReaderError::NoZone => BAD_ARGUMENT,
        ReaderError::NoBoard => NO_BOARD,
        ReaderError::Busy(_) => BUSY,
        ReaderError::NoMemory => refused(Refused::Memory),
    }
}

/// A reading as C has it.
fn reading_told(told: &Reading) -> ZoneReading
    ensures { result ≡ reading_told told.now }
{
    ZoneReading {
        by_order: told.counts.by_order,
        free: told.counts.free,
        place: told.place,
    }
}
