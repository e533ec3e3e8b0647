//! The opening of a row: its zones behind their locks.
ghost use Rattle.std.specs.Prelude.{◌≡◌, All, IfErr, IfOk, OnOk, map};
ghost use Rattle.zp_zone.specs.Making.{IsWideWhy};
ghost use Rattle.zp_open_gate.specs.Rows.{IsGoodConfig, IsWhyNoRow, key_for, lock_key, wanted_by};

use super::OpenRow;
use crate::room_key::RoomKey;
use crate::try_lock::TryLock;
use std::alloc::Global;
use zp_model::{Name, Refused};
use zp_open_room::OpenRoom;
use zp_zone::ZoneConfig;

impl OpenRow {
    /// A row of zones, each with all its pages free. Refused 1 to 4 where a config is wrong, by the first that is, and 6 where there is no
    /// memory.
    pub fn new(alloc: Global, configs: &[ZoneConfig<'_>]) -> Result<OpenRow, Refused>
        ensures good { OnOk result (All IsGoodConfig configs.now) }
        ensures why { IfErr result (IsWhyNoRow configs.now) }
        ensures keys { IfOk result (λ r. r ≡ map key_for configs.now) }
    {
        let Ok(mut locks) = Vec::with_capacity(alloc, configs.len()) else {
            return Err(Refused::Memory);
        };
        for config in configs {
            match opened_lock(alloc, config) {
                Ok(lock) => locks.push_reserved(lock),
                Err(why) => return Err(why),
            }
        }
        Ok(OpenRow { locks })
    }
}

/// One zone behind its lock.
fn opened_lock(alloc: Global, config: &ZoneConfig<'_>) -> Result<TryLock, Refused>
    ensures good { OnOk result (IsGoodConfig config.now) }
    ensures why { IfErr result (IsWideWhy (wanted_by config.now)) }
    ensures key { IfOk result (λ l. lock_key l ≡ key_for config.now) }
{
    let Some(name) = Name::new(config.name.as_bytes()) else {
        return Err(Refused::BadName);
    };
    let room = OpenRoom::new(alloc, ZoneConfig { ..*config })?;
    let key = RoomKey {
        name,
        base: config.base,
        pages: config.pages,
        min: config.min,
        largest: config.largest,
    };
    TryLock::new(alloc, room, &key)
}
