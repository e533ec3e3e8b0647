//! A worker's commands, each made of sections with zones of a row and of moves on the worker's own lists.
//!
//! In Linux: `rmqueue` with `rmqueue_pcplist`, `free_unref_page`, and `drain_pages`.
ghost use Rattle.std.specs.Prelude.{ℕ, ◌≡◌, ◌≢◌, ◌<◌, ◌≤◌, ◌+◌, ◌*◌, ◌⊎◌, List, [], length, false, true, Some, Ok, Err, IfOk, IfErr, OnOk, OnErr, IsTrue};
ghost use Rattle.zp_model.specs.declared.migrate_type.MigrateType.{MigrateType};
ghost use Rattle.zp_model.specs.declared.refused.Refused.TheVariants.{NotLent, JournalFull};
ghost use Rattle.zp_model.specs.declared.constants.TheConstants.{LONGEST_LIST, TYPES, MAX_ZONES};
ghost use Rattle.zp_zone.specs.NamedZone.{NamedZone};
ghost use Rattle.zp_share.specs.PlainShares.{lent_kind};
ghost use Rattle.zp_share.specs.ZoneShares.{IsAllocRefusal, IsShare, use_in, is_lent, cached_of};
ghost use Rattle.zp_share.specs.Commands.{alloc_in, alloc_down, free_in, is_listed, drain_full, drain_list, drain_zone, drain_all};
ghost use Rattle.zp_share.specs.Readings.{CoversOwn};
ghost use Rattle.zp_share.specs.Shares.{IsShareOf, IsSameShare, IsDone, IsAskedFor, IsFreedIn, IsLentBy, AreAskedDown, AreDrained, DrainsOnce, IsDrainedTill, KeepsLent, HasSameLent, HasSameLentBut, HasEmptyLists, list_place, plain, sections_at, share_at, with_room, world};

use crate::share::Share;
use crate::zones::Zones;
use zp_model::{Mark, MigrateType, Order, PageNo, Refused};

/// A block as it was lent: the place of its zone in the row, its first page, and its order.
#[derive(Clone, Copy, PartialEq, Eq, Debug, Drop)]
pub struct Lent {
    pub zone: usize,
    pub page: PageNo,
    pub order: Order,
}

/// Allocates a block of this order for this type, held to this mark, out of the zone at this place or the nearest below it that has one;
/// the block is then lent. Single pages come from the worker's list, which is refilled where it is empty; what lies on the list
/// is held to no mark. Refused as the last zone tried refuses it; a refusal 30 ends the walk, and leaves what the zones before it made.
pub fn alloc<Z: Zones>(
    share: &mut Share,
    zones: &mut Z,
    order: Order,
    kind: MigrateType,
    zone: usize,
    mark: Mark,
) -> Result<Lent, Refused>
    requires fits { IsShareOf (Z.keys zones.old) share.old }
    requires zone { zone < length share.old.zones }
    ensures keys { Z.keys zones.new ≡ Z.keys zones.old }
    ensures fits { IsShareOf (Z.keys zones.new) share.new }
    ensures same { IsSameShare share.old share.new }
    ensures lent { IfOk result (λ l. IsTrue (is_lent (share_at share.new l.zone) l.page l.order)) }
    ensures order { IfOk result (λ l. l.order ≡ order) }
    ensures place { IfOk result (λ l. l.zone ≤ zone) }
    ensures kept { KeepsLent share.old share.new }
    ensures blocks { IsLentBy result share.old share.new }
    ensures only { IfErr result IsAllocRefusal }
    ensures asked { AreAskedDown order kind mark zone result share.old share.new }
    ensures above { (i : ℕ) → zone < i → share_at share.new i ≡ share_at share.old i }
    ensures read { CoversOwn (Z.covers zones.old) (Z.covers zones.new) share.old share.new }
    ensures full { result ≡ Err JournalFull → (i : ℕ) × ((i ≤ zone) × Z.ended zones.new i share.new) }
    ensures told { (rows : List NamedZone) → Z.told zones.old ≡ Some rows → IsDone (alloc_down order kind mark zone (world rows share.old)) result (Z.told zones.new) share.new }
{
    match alloc_in(share, zones, zone, order, kind, mark) {
        Ok(page) => Ok(Lent { zone, page, order }),
        Err(refused) if zone == 0 || refused == Refused::JournalFull => Err(refused),
        Err(_) => alloc(share, zones, order, kind, zone - 1, mark),
    }
}

/// A block of the zone at this place alone: its first page.
fn alloc_in<Z: Zones>(
    share: &mut Share,
    zones: &mut Z,
    zone: usize,
    order: Order,
    kind: MigrateType,
    mark: Mark,
) -> Result<PageNo, Refused>
    requires fits { IsShareOf (Z.keys zones.old) share.old }
    requires zone { zone < length share.old.zones }
    ensures keys { Z.keys zones.new ≡ Z.keys zones.old }
    ensures fits { IsShareOf (Z.keys zones.new) share.new }
    ensures same { IsSameShare share.old share.new }
    ensures lent { IfOk result (λ page. IsTrue (is_lent (share_at share.new zone) page order)) }
    ensures only { IfErr result IsAllocRefusal }
    ensures asked { IsAskedFor order kind mark zone result share.old share.new }
    ensures read { CoversOwn (Z.covers zones.old) (Z.covers zones.new) share.old share.new }
    ensures full { result ≡ Err JournalFull → Z.ended zones.new zone share.new }
    ensures told { (rows : List NamedZone) → Z.told zones.old ≡ Some rows → IsDone (alloc_in (world rows share.old) zone order kind mark) result (Z.told zones.new) share.new }
{
    if !share.is_listed(order) {
        return zones.alloc_block(share, zone, order, kind, mark);
    }
    if share.cached_len(zone, kind) == 0 {
        return alloc_filled(share, zones, zone, order, kind, mark);
    }
    // the list has a page
    share.take_cached(zone, kind).ok_or(Refused::NoBlock)
}

/// A page of a list that is empty and is filled first. Out of line, so that `alloc` has no way on which a list is filled or not, and
/// sees once whether it has a page.
#[cold]
#[inline(never)]
fn alloc_filled<Z: Zones>(
    share: &mut Share,
    zones: &mut Z,
    zone: usize,
    order: Order,
    kind: MigrateType,
    mark: Mark,
) -> Result<PageNo, Refused>
    requires fits { IsShareOf (Z.keys zones.old) share.old }
    requires zone { zone < length share.old.zones }
    requires listed { is_listed (plain share.old) order ≡ true }
    requires empty { length (cached_of (share_at share.old zone) kind) ≡ 0 }
    requires share { IsShare (share_at share.old zone) }
    ensures keys { Z.keys zones.new ≡ Z.keys zones.old }
    ensures fits { IsShareOf (Z.keys zones.new) share.new }
    ensures same { IsSameShare share.old share.new }
    ensures lent { IfOk result (λ page. IsTrue (is_lent (share_at share.new zone) page order)) }
    ensures only { IfErr result IsAllocRefusal }
    ensures asked { IsAskedFor order kind mark zone result share.old share.new }
    ensures read { CoversOwn (Z.covers zones.old) (Z.covers zones.new) share.old share.new }
    ensures full { result ≡ Err JournalFull → Z.ended zones.new zone share.new }
    ensures told { (rows : List NamedZone) → Z.told zones.old ≡ Some rows → IsDone (alloc_in (world rows share.old) zone order kind mark) result (Z.told zones.new) share.new }
{
    // the order is named for the clauses alone
    let _ = order;
    zones.fill(share, zone, kind, mark)?;
    // what is filled has got a page
    share.take_cached(zone, kind).ok_or(Refused::NoBlock)
}

/// Frees the block of this order at this page of the zone at this place. A single page goes to the front of the list of its
/// type; a list that has `high_len` pages frees a batch, before and after. Refused 20 where the block is not lent with
/// this order, and 30; then the share is as it was.
pub fn free<Z: Zones>(
    share: &mut Share,
    zones: &mut Z,
    zone: usize,
    page: PageNo,
    order: Order,
) -> Result<(), Refused>
    requires fits { IsShareOf (Z.keys zones.old) share.old }
    requires zone { zone < length share.old.zones }
    ensures keys { Z.keys zones.new ≡ Z.keys zones.old }
    ensures fits { IsShareOf (Z.keys zones.new) share.new }
    ensures same { IsSameShare share.old share.new }
    ensures not_lent { is_lent (share_at share.old zone) page order ≡ false → result ≡ Err NotLent }
    ensures gone { OnOk result (is_lent (share_at share.new zone) page order ≡ false) }
    ensures others { HasSameLentBut zone page share.old share.new }
    ensures left { OnErr result (share.new ≡ share.old) }
    ensures freed { OnOk result (IsFreedIn (Z.ended zones.new zone share.new) zone page order share.old share.new) }
    ensures elsewhere { (i : ℕ) → i ≢ zone → share_at share.new i ≡ share_at share.old i }
    ensures read { CoversOwn (Z.covers zones.old) (Z.covers zones.new) share.old share.new }
    ensures full { result ≡ Err JournalFull → Z.ended zones.new zone share.new }
    ensures only { IfErr result (λ e. (e ≡ NotLent) ⊎ (e ≡ JournalFull)) }
    ensures told { (rows : List NamedZone) → Z.told zones.old ≡ Some rows → IsDone (free_in (world rows share.old) zone page order) result (Z.told zones.new) share.new }
{
    let Some(kind) = share.lent_kind(zone, page, order) else {
        return Err(Refused::NotLent);
    };
    if !share.is_listed(order) {
        return zones.free_block(share, zone, page, order);
    }
    let len = share.cached_len(zone, kind);
    if len + 1 < share.lists().high_len() {
        // the list is not full with the page either
        share.put_lent(zone, page, kind);
        return Ok(());
    }
    free_to_full(share, zones, zone, page, kind, len)
}

/// Frees a lent page of this type to its list, which has so many pages, and drains a batch where the list is full before or after. Out of line,
/// so that `free` saves no registers. Refused 30; then the share is as it was.
#[cold]
#[inline(never)]
fn free_to_full<Z: Zones>(
    share: &mut Share,
    zones: &mut Z,
    zone: usize,
    page: PageNo,
    kind: MigrateType,
    len: usize,
) -> Result<(), Refused>
    requires fits { IsShareOf (Z.keys zones.old) share.old }
    requires zone { zone < length share.old.zones }
    requires lists { is_listed (plain share.old) 0 ≡ true }
    requires lent { lent_kind (use_in (share_at share.old zone) page) 0 ≡ Some kind }
    requires len { len ≡ length (cached_of (share_at share.old zone) kind) }
    requires full { len ≤ share.old.high_len }
    requires share { IsShare (share_at share.old zone) }
    ensures keys { Z.keys zones.new ≡ Z.keys zones.old }
    ensures fits { IsShareOf (Z.keys zones.new) share.new }
    ensures same { IsSameShare share.old share.new }
    ensures gone { OnOk result ((k : ℕ) → is_lent (share_at share.new zone) page k ≡ false) }
    ensures others { HasSameLentBut zone page share.old share.new }
    ensures left { OnErr result (share.new ≡ share.old) }
    ensures freed { OnOk result (IsFreedIn (Z.ended zones.new zone share.new) zone page 0 share.old share.new) }
    ensures elsewhere { (i : ℕ) → i ≢ zone → share_at share.new i ≡ share_at share.old i }
    ensures read { CoversOwn (Z.covers zones.old) (Z.covers zones.new) share.old share.new }
    ensures full { result ≡ Err JournalFull → Z.ended zones.new zone share.new }
    ensures only { IfErr result (λ e. e ≡ JournalFull) }
    ensures told { (rows : List NamedZone) → Z.told zones.old ≡ Some rows → IsDone (free_in (world rows share.old) zone page 0) result (Z.told zones.new) share.new }
{
    drain_full(share, zones, zone, kind, len)?;
    let len = share.put_lent(zone, page, kind);
    // the page is freed whatever becomes of this drain
    let _ = drain_full(share, zones, zone, kind, len);
    Ok(())
}

/// Frees a batch of a list, which has so many pages, where they are `high_len`, so that it has room for a page. Refused 30.
#[inline(always)]
fn drain_full<Z: Zones>(
    share: &mut Share,
    zones: &mut Z,
    zone: usize,
    kind: MigrateType,
    len: usize,
) -> Result<(), Refused>
    requires fits { IsShareOf (Z.keys zones.old) share.old }
    requires zone { zone < length share.old.zones }
    requires lists { 1 ≤ share.old.batch }
    requires len { len ≡ length (cached_of (share_at share.old zone) kind) }
    requires full { len ≤ share.old.high_len }
    requires share { IsShare (share_at share.old zone) }
    ensures keys { Z.keys zones.new ≡ Z.keys zones.old }
    ensures fits { IsShareOf (Z.keys zones.new) share.new }
    ensures same { IsSameShare share.old share.new }
    ensures lent { HasSameLent share.old share.new }
    ensures kinds { (p k : ℕ) → lent_kind (use_in (share_at share.new zone) p) k ≡ lent_kind (use_in (share_at share.old zone) p) k }
    ensures room { OnOk result (length (cached_of (share_at share.new zone) kind) < share.old.high_len) }
    ensures left { OnErr result (share.new ≡ share.old) }
    ensures made { OnOk result (share_at share.new zone ≡ with_room share.old.batch share.old.high_len kind (share_at share.old zone)) }
    ensures elsewhere { (i : ℕ) → i ≢ zone → share_at share.new i ≡ share_at share.old i }
    ensures read { CoversOwn (Z.covers zones.old) (Z.covers zones.new) share.old share.new }
    ensures full { result ≡ Err JournalFull → Z.ended zones.new zone share.new }
    ensures only { IfErr result (λ e. e ≡ JournalFull) }
    ensures told { (rows : List NamedZone) → Z.told zones.old ≡ Some rows → IsDone (drain_full (world rows share.old) zone kind) result (Z.told zones.new) share.new }
{
    let lists = share.lists();
    if len < lists.high_len() {
        return Ok(());
    }
    zones.drain(share, zone, kind, usize::from(lists.batch()))
}

/// Frees all pages of the worker's lists, zone by zone, each list in one section: how many they were. Refused 30; then the
/// lists before that one are empty, and that one and the rest as they were.
pub fn drain_all<Z: Zones>(share: &mut Share, zones: &mut Z) -> Result<usize, Refused>
    requires fits { IsShareOf (Z.keys zones.old) share.old }
    ensures keys { Z.keys zones.new ≡ Z.keys zones.old }
    ensures fits { IsShareOf (Z.keys zones.new) share.new }
    ensures same { IsSameShare share.old share.new }
    ensures empty { OnOk result (HasEmptyLists share.new) }
    ensures stopped { OnErr result (IsDrainedTill 0 share.old share.new) }
    ensures once { DrainsOnce share.old share.new }
    ensures read { CoversOwn (Z.covers zones.old) (Z.covers zones.new) share.old share.new }
    ensures full { result ≡ Err JournalFull → (i : ℕ) × ((i < length share.old.zones) × Z.ended zones.new i share.new) }
    ensures lent { HasSameLent share.old share.new }
    ensures only { IfErr result (λ e. e ≡ JournalFull) }
    ensures few { IfOk result (λ n. n ≤ MAX_ZONES * (TYPES * LONGEST_LIST)) }
    ensures told { (rows : List NamedZone) → Z.told zones.old ≡ Some rows → IsDone (drain_all (world rows share.old)) result (Z.told zones.new) share.new }
{
    let mut drained = 0;
    for zone in 0..share.zones() {
        drained = drain_zone(share, zones, zone, drained)?;
    }
    Ok(drained)
}

/// Drains the lists of the zone at this place. Returns how many pages were freed, with those before.
fn drain_zone<Z: Zones>(
    share: &mut Share,
    zones: &mut Z,
    zone: usize,
    before: usize,
) -> Result<usize, Refused>
    requires fits { IsShareOf (Z.keys zones.old) share.old }
    requires zone { zone < length share.old.zones }
    requires room { before + TYPES * LONGEST_LIST ≤ MAX_ZONES * (TYPES * LONGEST_LIST) }
    ensures keys { Z.keys zones.new ≡ Z.keys zones.old }
    ensures fits { IsShareOf (Z.keys zones.new) share.new }
    ensures same { IsSameShare share.old share.new }
    ensures room { IfOk result (λ n. n ≤ before + TYPES * LONGEST_LIST) }
    ensures drained { OnOk result (AreDrained (zone * TYPES) (zone * TYPES + TYPES) share.old share.new) }
    ensures stopped { OnErr result (IsDrainedTill (zone * TYPES) share.old share.new) }
    ensures once { DrainsOnce share.old share.new }
    ensures read { CoversOwn (Z.covers zones.old) (Z.covers zones.new) share.old share.new }
    ensures full { result ≡ Err JournalFull → Z.ended zones.new zone share.new }
    ensures lent { HasSameLent share.old share.new }
    ensures only { IfErr result (λ e. e ≡ JournalFull) }
    ensures told { (rows : List NamedZone) → Z.told zones.old ≡ Some rows → IsDone (drain_zone before (world rows share.old) zone) result (Z.told zones.new) share.new }
{
    let unmovable = drain_list(share, zones, zone, MigrateType::Unmovable, before)?;
    let reclaimable = drain_list(share, zones, zone, MigrateType::Reclaimable, unmovable)?;
    drain_list(share, zones, zone, MigrateType::Movable, reclaimable)
}

/// Drains one list, where it is not empty. Returns how many pages were freed, with those before.
fn drain_list<Z: Zones>(
    share: &mut Share,
    zones: &mut Z,
    zone: usize,
    kind: MigrateType,
    before: usize,
) -> Result<usize, Refused>
    requires fits { IsShareOf (Z.keys zones.old) share.old }
    requires zone { zone < length share.old.zones }
    requires room { before + LONGEST_LIST ≤ MAX_ZONES * (TYPES * LONGEST_LIST) }
    ensures keys { Z.keys zones.new ≡ Z.keys zones.old }
    ensures fits { IsShareOf (Z.keys zones.new) share.new }
    ensures same { IsSameShare share.old share.new }
    ensures room { IfOk result (λ n. n ≤ before + LONGEST_LIST) }
    ensures drained { OnOk result (AreDrained (list_place zone kind) (list_place zone kind + 1) share.old share.new) }
    ensures stopped { OnErr result (IsDrainedTill (list_place zone kind) share.old share.new) }
    ensures once { DrainsOnce share.old share.new }
    ensures read { CoversOwn (Z.covers zones.old) (Z.covers zones.new) share.old share.new }
    ensures full { result ≡ Err JournalFull → Z.ended zones.new zone share.new }
    ensures lent { HasSameLent share.old share.new }
    ensures only { IfErr result (λ e. e ≡ JournalFull) }
    ensures told { (rows : List NamedZone) → Z.told zones.old ≡ Some rows → IsDone (drain_list before (world rows share.old) zone kind) result (Z.told zones.new) share.new }
{
    let count = share.cached_len(zone, kind);
    if count == 0 {
        return Ok(before);
    }
    zones.drain(share, zone, kind, count)?;
    Ok(before + count)
}
