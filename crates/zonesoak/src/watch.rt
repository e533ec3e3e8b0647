//! What a reader sees that reads a zone's board all the while: it has no seat, takes no lock, and stops nobody.

use zp_model::{Counts, ORDERS};
use zp_shared::{Keeps, Naming, OneZone, Reading, ZoneReader};

/// How often it reads at most.
const MOST_READINGS: u32 = 1_000_000_000;

/// What a reader saw.
#[derive(Clone, Copy, PartialEq, Eq, Debug, Drop)]
pub struct BoardWatch {
    /// The place of its last reading.
    pub place: u64,
    /// Whether no reading was of an earlier place than the one before it, and each one's free pages were those of its blocks.
    pub are_good: bool,
}

/// How many pages blocks have, so many of each order.
fn pages_of(counts: &Counts) -> u64 {
    let mut pages = 0_u64;
    for order in 0..ORDERS {
        pages = pages.saturating_add(u64::from(counts.by_order[order]) << order);
    }
    pages
}

/// Whether this reading may come after one of this place.
fn is_good(reading: &Reading, place: u64) -> bool {
    reading.place >= place && pages_of(&reading.counts) == u64::from(reading.counts.free)
}

/// Reads until so many requests were made of the zone.
pub fn read_all_the_while<J: Naming, R, K: Keeps>(
    rt: &R,
    reader: ZoneReader<J>,
    zone: &OneZone<J, K>,
    requests: u64,
) -> BoardWatch {
    let mut reader = reader.at(rt, zone);
    let mut watch = BoardWatch {
        place: 0,
        are_good: true,
    };
    for _ in 0..MOST_READINGS {
        let reading = reader.read();
        watch.are_good = watch.are_good && is_good(&reading, watch.place);
        watch.place = reading.place;
        if watch.place >= requests {
            break;
        }
    }
    watch
}
