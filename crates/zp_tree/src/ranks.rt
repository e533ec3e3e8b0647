//! The ranks of groups, and a tree over them.
ghost use Rattle.std.specs.Prelude.{◌≡◌, ◌≤◌, ◌<◌, ◌+◌, ◌*◌, ◌^◌, ℕ, true, false, IfOk, length, slice_index, slice_set};
ghost use Rattle.zp_tree.specs.declared.constants.TheConstants.{FAN, MOST_GROUPS};
ghost use Rattle.zp_tree.specs.RankRows.{best_from, IsFirstAmong, IsFirstOfEight, IsFirstRank, IsTopRank, IsLeastRow, IsOpen, IsRaised, IsMended};

use crate::constants::FAN;
use crate::meter::Meter;
use crate::metered::Metered;
use crate::rank::Rank;
use std::alloc::{AllocError, Global};
use std::marker::Model;

/// The node above all others.
const ROOT: usize = 1;

/// The ranks of groups, side by side as one row of a tree. Contracts see the row.
#[derive(Drop)]
pub struct RankTree {
    /// The ranks are the second half. The first has the nodes above them, from node 1 on.
    nodes: Metered<Rank>,
}

impl Model for RankTree {
    ghost use Rattle.std.specs.Prelude.{ℕ, List, drop, length, ◌≤◌, ◌<◌, ◌*◌, ◌/◌, ◌^◌};
    ghost use Rattle.zp_tree.specs.declared.constants.TheConstants.{FAN, MOST_GROUPS};
    ghost use Rattle.zp_tree.specs.RankRows.{IsRanked};

    ghost Value = { List ℕ };

    ghost view = { λ t. drop (length t.nodes / 2) t.nodes };

    ghost invariant = { λ t. (d : ℕ) × (0 < d) × (FAN ^ d ≤ FAN * MOST_GROUPS) × IsRanked d t.nodes };
}

/// The largest of the ranks that stand side by side from a node on. They are one read.
fn best_of_eight(nodes: &Metered<Rank>, node: usize, meter: &mut Meter) -> Rank
    requires inside { node + FAN ≤ length nodes.now }
    requires count { meter.old + 1 < 2 ^ 64 }
    ensures best { result ≡ best_from nodes.now node FAN }
    ensures counted { meter.new ≡ meter.old + 1 }
{
    let eight = nodes.read_eight(node, meter);
    let mut best = Rank::none();
    'nodes: for place in 0..FAN {
        best = best.with(eight[place]);
    }
    best
}

/// The first of eight ranks that is this one or more.
fn first_among(eight: &[Rank], rank: Rank) -> Option<usize>
    requires { length eight.now ≡ FAN }
    ensures { IsFirstAmong eight.now rank result }
{
    (0..FAN).find(|&it| eight[it].is_at_least(rank))
}

/// The first node with this rank or more of those side by side from a node on, and its rank. They are one read.
fn first_of_eight(
    nodes: &Metered<Rank>,
    node: usize,
    rank: Rank,
    meter: &mut Meter,
) -> Option<(usize, Rank)>
    requires inside { node + FAN ≤ length nodes.now }
    requires count { meter.old + 1 < 2 ^ 64 }
    ensures first { IsFirstOfEight nodes.now node rank result }
    ensures counted { meter.new ≡ meter.old + 1 }
{
    let eight = nodes.read_eight(node, meter);
    let place = first_among(eight, rank)?;
    Some((node + place, eight[place]))
}

/// Mends the nodes above a rank that fell, up to the first that still holds as much as one of those below it.
fn mend(nodes: &mut Metered<Rank>, rank: usize)
    requires { IsOpen nodes.old rank }
    ensures { IsMended nodes.old nodes.new rank }
{
    let mut node = rank;
    'mending: while node > ROOT {
        let mut meter = Meter::new();
        node /= FAN;
        let held = nodes.read(node, &mut meter);
        if first_of_eight(nodes, FAN * node, held, &mut meter).is_some() {
            return;
        }
        let best = best_of_eight(nodes, FAN * node, &mut meter);
        nodes.write(node, best);
    }
}

/// Raises the nodes above a rank that was written, up to the first that holds as much already.
fn raise(nodes: &mut Metered<Rank>, place: usize, rank: Rank)
    requires { IsRaised nodes.old place rank }
    ensures { IsMended nodes.old nodes.new place }
{
    let mut node = place;
    'rising: while node > ROOT {
        let mut meter = Meter::new();
        node /= FAN;
        if nodes.read(node, &mut meter).is_at_least(rank) {
            return;
        }
        nodes.write(node, rank);
    }
}

/// Settles the nodes above a rank that was written, which rose or fell.
#[inline(always)]
fn settle(nodes: &mut Metered<Rank>, place: usize, rank: Rank, rises: bool)
    requires up { rises ≡ true → IsRaised nodes.old place rank }
    requires down { rises ≡ false → IsOpen nodes.old place }
    ensures { IsMended nodes.old nodes.new place }
{
    if rises {
        raise(nodes, place, rank);
    } else {
        mend(nodes, place);
    }
}

impl RankTree {
    /// So many ranks of no block, or some more: the row is the shortest that has room for them.
    pub fn new(alloc: Global, groups: usize) -> Result<RankTree, AllocError>
        requires { groups ≤ MOST_GROUPS }
        ensures row { IfOk result (λ t. IsLeastRow groups (length t)) }
        ensures none { IfOk result (λ t. (g : ℕ) → slice_index t g ≡ 0) }
    {
        let mut first = FAN;
        'rows: while first < groups {
            first *= FAN;
        }
        let nodes = Metered::new(alloc, Rank::none(), 2 * first)?;
        Ok(RankTree { nodes })
    }

    /// How many ranks the row has, and the node of the first: half of the nodes.
    #[inline]
    fn row(&self) -> usize
        ensures row { result ≡ length self.now }
        ensures few { result ≤ FAN * MOST_GROUPS }
    {
        self.nodes.len() / 2
    }

    /// The rank of a group.
    #[inline]
    pub fn rank(&self, group: usize) -> Rank
        requires { group < length self.now }
        ensures { result ≡ slice_index self.now group }
    {
        let mut meter = Meter::new();
        self.read(group, &mut meter)
    }

    /// The same, counted. One read.
    #[inline]
    pub fn read(&self, group: usize, meter: &mut Meter) -> Rank
        requires group { group < length self.now }
        requires count { meter.old + 1 < 2 ^ 64 }
        ensures rank { result ≡ slice_index self.now group }
        ensures counted { meter.new ≡ meter.old + 1 }
    {
        self.nodes.read(self.row() + group, meter)
    }

    /// Gives a group a rank that is no smaller where it rises, and else no larger.
    #[inline(always)]
    pub fn put(&mut self, group: usize, rank: Rank, rises: bool)
        requires group { group < length self.old }
        requires up { rises ≡ true → slice_index self.old group ≤ rank }
        requires down { rises ≡ false → rank ≤ slice_index self.old group }
        ensures { self.new ≡ slice_set self.old group rank }
    {
        let node = self.row() + group;
        self.nodes.write(node, rank);
        settle(&mut self.nodes, node, rank, rises);
    }

    /// The largest rank.
    pub fn largest(&self) -> Rank
        ensures { IsTopRank self.now result }
    {
        let mut meter = Meter::new();
        self.nodes.read(ROOT, &mut meter)
    }

    /// The first group from this one on, before `end`, of this rank or more; else `end`. One rank is read of each group that is passed.
    pub fn first_from(&self, group: usize, end: usize, rank: Rank) -> usize
        requires order { group ≤ end }
        requires inside { end ≤ length self.now }
        ensures from { group ≤ result }
        ensures to { result ≤ end }
        ensures less { (g : ℕ) → group ≤ g → g < result → slice_index self.now g < rank }
        ensures enough { result < end → rank ≤ slice_index self.now result }
    {
        (group..end)
            .find(|&it| self.rank(it).is_at_least(rank))
            .unwrap_or(end)
    }

    /// The first group of this rank or more, and its rank. The meter rises by one for each word of ranks read, one of a row at most.
    pub fn first(&self, rank: Rank, meter: &mut Meter) -> Option<(usize, Rank)>
        requires rank { 0 < rank }
        requires count { meter.old ≤ 2 ^ 32 + 1 }
        ensures first { IsFirstRank self.now rank result }
        ensures counted { (d : ℕ) → length self.now ≡ FAN ^ d → meter.new ≤ meter.old + d }
        ensures read { meter.old < meter.new }
    {
        let row = self.row();
        let mut node = ROOT;
        let mut held = Rank::none();
        'rows: while node < row {
            (node, held) = first_of_eight(&self.nodes, FAN * node, rank, meter)?;
        }
        Some((node - row, held))
    }
}
