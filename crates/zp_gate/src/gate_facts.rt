//! What never changes behind a lock.
ghost use Rattle.zp_gate.specs.GatedZones.{GateKey};

use std::marker::Model;
use zp_counts::Board;
use zp_model::{Largest, Name};
use zp_zone::Seat;

/// What a lock is known by: what of its zone never changes, a seat of it, for the tie alone, and the board beside the lock, where there is one.
/// Contracts see the zone's key, and the board.
#[derive(Drop)]
pub struct GateFacts {
    pub(crate) seat: Seat,
    pub(crate) name: Name,
    pub(crate) base: u32,
    pub(crate) pages: u32,
    pub(crate) min: u32,
    pub(crate) largest: Largest,
    pub(crate) workers: u32,
    pub(crate) board: Option<Board>,
}

impl Model for GateFacts {
    ghost use Rattle.zp_gate.specs.GatedZones.{GateKey};

    ghost Value = { GateKey };

    ghost view = { λ k. record { zone = record { tie = k.seat.tie; name = k.name; base = k.base; pages = k.pages; min = k.min; largest = k.largest; workers = k.workers }; board = k.board } };
}
