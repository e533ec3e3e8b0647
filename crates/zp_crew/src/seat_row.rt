//! The seats of one zone that no share has yet.
ghost use Rattle.std.specs.Prelude.{◌≡◌, ◌≤◌, drop, length, slice_index_or};
ghost use Rattle.zp_share.specs.Shares.{no_seat};

use std::marker::Model;
use zp_zone::Seat;

/// Seats of one zone, in the workers' order.
#[derive(Drop)]
pub struct SeatRow {
    seats: Vec<Seat>,
}

impl Model for SeatRow {
    ghost use Rattle.std.specs.Prelude.{List};
    ghost use Rattle.zp_zone.specs.Seats.{SeatState};

    ghost Value = { List SeatState };

    ghost view = { λ r. r.seats.items };
}

impl SeatRow {
    pub fn new(seats: Vec<Seat>) -> SeatRow
        ensures { result ≡ seats.items }
    {
        SeatRow { seats }
    }

    /// Takes the front seat off the row.
    pub fn take_front(&mut self) -> Seat
        requires { 1 ≤ length self.old }
        ensures front { result ≡ slice_index_or self.old 0 no_seat }
        ensures rest { self.new ≡ drop 1 self.old }
    {
        self.seats.remove(0)
    }
}
