//! Blocks that are got and put back. Each call is one visit of the zone, and one call of the room there.
ghost use Rattle.std.specs.Prelude.{◌≡◌, ◌≤◌, ◌↔◌, Err, IfOk, IsTrue, Some, length};
ghost use Rattle.zp_model.specs.declared.request.Request.TheVariants as request;
ghost use Rattle.zp_model.specs.Choose.{origin};
ghost use Rattle.zp_model.specs.Run.{is_out};
ghost use Rattle.zp_zone.specs.NamedZone.{block_reply, page_reply, told_reply};
ghost use Rattle.zp_open_gate.specs.declared.visited.NotVisited.TheVariants.{NoZone};
ghost use Rattle.zp_open_gate.specs.Rows.{key_at};
ghost use Rattle.zp_open_gate.specs.Visits.{IsAsked, IsOfVisit, IsPut};

use super::OpenRow;
use crate::visited::{NotVisited, Visited};
use zp_model::{Block, Mark, MigrateType, Order, PageNo, Refused};
use zp_zone::Told;

impl OpenRow {
    /// A block of this order for this type, held to this mark: its first page. Refused 10 or 11.
    pub fn get_block(
        &self,
        zone: usize,
        order: Order,
        kind: MigrateType,
        mark: Mark,
    ) -> Result<Visited<Result<PageNo, Refused>>, NotVisited>
        ensures zone { (result ≡ Err NoZone) ↔ (length self.now ≤ zone) }
        ensures made { IfOk result (λ v. IsOfVisit (key_at self.now zone) v.visit (IsAsked (request.Alloc order kind mark) (page_reply v.answer))) }
        ensures out { IfOk result (λ v. IfOk v.answer (λ page. IsOfVisit (key_at self.now zone) v.visit (λ y z. IsTrue (is_out z.zone.plain z.worker page order)))) }
    {
        let (lock, mut visitor) = self.enter(zone)?;
        let room = visitor.slot_mut(&lock.table.shared, 0);
        let answer = room.get_block(order, kind, mark);
        let visit = lock.leave(visitor);
        Ok(Visited { answer, visit })
    }

    /// As `get_block`, and tells where the block came from.
    pub fn get_told(
        &self,
        zone: usize,
        order: Order,
        kind: MigrateType,
        mark: Mark,
    ) -> Result<Visited<Result<Told, Refused>>, NotVisited>
        ensures zone { (result ≡ Err NoZone) ↔ (length self.now ≤ zone) }
        ensures made { IfOk result (λ v. IsOfVisit (key_at self.now zone) v.visit (IsAsked (request.Alloc order kind mark) (told_reply v.answer))) }
        ensures told { IfOk result (λ v. IfOk v.answer (λ t. IsOfVisit (key_at self.now zone) v.visit (λ y z. origin y.zone.plain.area order kind ≡ Some t.origin))) }
        ensures out { IfOk result (λ v. IfOk v.answer (λ t. IsOfVisit (key_at self.now zone) v.visit (λ y z. IsTrue (is_out z.zone.plain z.worker t.page order)))) }
    {
        let (lock, mut visitor) = self.enter(zone)?;
        let room = visitor.slot_mut(&lock.table.shared, 0);
        let answer = room.get_told(order, kind, mark);
        let visit = lock.leave(visitor);
        Ok(Visited { answer, visit })
    }

    /// The lowest block of this order, of whatever type. The type noted for it is its pageblock's. Refused 11.
    pub fn get_low(
        &self,
        zone: usize,
        order: Order,
    ) -> Result<Visited<Result<Block, Refused>>, NotVisited>
        ensures zone { (result ≡ Err NoZone) ↔ (length self.now ≤ zone) }
        ensures made { IfOk result (λ v. IsOfVisit (key_at self.now zone) v.visit (IsAsked (request.AllocLow order) (block_reply v.answer))) }
        ensures order { IfOk result (λ v. IfOk v.answer (λ block. block.order ≡ order)) }
        ensures out { IfOk result (λ v. IfOk v.answer (λ block. IsOfVisit (key_at self.now zone) v.visit (λ y z. IsTrue (is_out z.zone.plain z.worker block.page block.order)))) }
    {
        let (lock, mut visitor) = self.enter(zone)?;
        let room = visitor.slot_mut(&lock.table.shared, 0);
        let answer = room.get_low(order);
        let visit = lock.leave(visitor);
        Ok(Visited { answer, visit })
    }

    /// A block back, whoever got it. Refused 20 exactly where no block of this order is out at this page, and then nothing has changed.
    pub fn put_block(
        &self,
        zone: usize,
        page: PageNo,
        order: Order,
    ) -> Result<Visited<Result<(), Refused>>, NotVisited>
        ensures zone { (result ≡ Err NoZone) ↔ (length self.now ≤ zone) }
        ensures made { IfOk result (λ v. IsOfVisit (key_at self.now zone) v.visit (λ y z. IsPut (is_out y.zone.plain y.worker page order) (request.Free page order) v.answer y z)) }
    {
        let (lock, mut visitor) = self.enter(zone)?;
        let room = visitor.slot_mut(&lock.table.shared, 0);
        let answer = room.put_block(page, order);
        let visit = lock.leave(visitor);
        Ok(Visited { answer, visit })
    }
}
