//! A reader of the counts of one zone that threads share.
ghost use Rattle.std.specs.Prelude.{◌≡◌, ◌∷◌, [], length, map};
ghost use Rattle.zp_counts.specs.CountBoards.{BoardState, last_reading};
ghost use Rattle.zp_shared.specs.Rows.{AreReaders, IsReadAt, ViewState, seen_at, seen_by};

use crate::locked_zones::LockedZones;
use crate::naming::Naming;
use crate::one_zone::OneZone;
use std::alloc::Global;
use std::marker::{Model, PhantomData};
use zp_counts::{BoardReader, Reading};
use zp_journal::Keeps;

/// A reader of the zone's board, which has no seat.
#[derive(Drop)]
pub struct ZoneReader<J: Naming> {
    readers: Vec<BoardReader>,
    of: PhantomData<J>,
    ghost one: { length J.zones ≡ 1 },
    ghost read: { AreReaders J.zones J.boards readers },
}

impl<J: Naming> ZoneReader<J> {
    /// None where there is no memory.
    pub fn new(alloc: Global, reader: BoardReader) -> Option<ZoneReader<J>>
        requires one { length J.zones ≡ 1 }
        requires board { map (λ (b : BoardState). b.tie) J.boards ≡ reader.tie ∷ [] }
        requires each { length J.boards ≡ length J.zones }
    {
        let mut readers = Vec::with_capacity(alloc, 1).ok()?;
        readers.push_reserved(reader);
        Some(ZoneReader {
            readers,
            of: PhantomData,
        })
    }

    /// The reader turns to its zone.
    pub fn at<'a, R, K: Keeps>(self, rt: &'a R, zone: &'a OneZone<J, K>) -> ReaderAt<'a, J, R, K> {
        let ZoneReader { readers, .. } = self;
        ReaderAt {
            view: LockedZones::<J, (), R, K>::new(rt, zone.as_slice(), readers),
        }
    }
}

/// A reader at work on its zone. Contracts see its view of the zone's counts.
#[derive(Drop)]
pub struct ReaderAt<'a, J: Naming, R, K: Keeps> {
    view: LockedZones<'a, J, (), R, K>,
}

impl<'a, J: Naming, R, K: Keeps> Model for ReaderAt<'a, J, R, K> {
    ghost use Rattle.std.specs.Prelude.{◌≡◌, length};
    ghost use Rattle.zp_shared.specs.Rows.{ViewState};

    ghost Value = { ViewState };

    ghost view = { λ r. r.view };

    ghost invariant = { λ r. length J.zones ≡ 1 };
}

impl<'a, J: Naming, R, K: Keeps> ReaderAt<'a, J, R, K> {
    /// The zone's counts with their place, with no lock: never of an earlier place than those that it read before.
    pub fn read(&mut self) -> Reading
        ensures last { result ≡ last_reading (seen_at (seen_by self.new.readers) 0) }
        ensures read { IsReadAt 0 self.old self.new }
    {
        self.view.read(0)
    }
}
