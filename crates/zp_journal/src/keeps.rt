//! What is asked of whatever a zone keeps.

use zp_model::Entry;

/// What a zone that threads share keeps of the requests made of it. The caller says for how many requests the zone's board has room,
/// as no zone makes more.
pub trait Keeps: Drop {
    ghost use Rattle.std.specs.Prelude.{ℕ, ◌≡◌, ◌≤◌, ◌<◌, ◌++◌, ◌∷◌, [], leb, length};
    ghost use Rattle.zp_model.specs.Run.{IsHistory};
    ghost use Rattle.zp_zone.specs.Seats.{ZoneState};

    // How many entries of the zone there is room for in all, where its board has room for so many.
    ghost capacity: { Self → ℕ → ℕ };
    // What that room is, of the board's.
    ghost bounds: { ℕ → ℕ → Type 0 };
    // How many of the zone's entries were handed over.
    ghost handed: { Self → ℕ };
    // It is what is kept of this zone.
    ghost keeps: { ZoneState → Self → Type 0 };

    /// Whether there is no room for one more entry, where the caller says whether the board has none.
    fn is_full(&self, board_is_full: bool) -> bool
        ensures full { (n : ℕ) (z : ZoneState) → keeps z self.now → board_is_full ≡ leb n (length z.entries) → result ≡ leb (capacity self.now n) (length z.entries) }
        ensures within { (n : ℕ) → bounds n (capacity self.now n) → capacity self.now n ≤ n };

    /// The zone made this entry: it is kept, where entries are. Takes no memory.
    fn keep(&mut self, entry: &Entry)
        requires room { (n : ℕ) × (z : ZoneState) × keeps z self.old × (length z.entries < capacity self.old n) }
        ensures kept { (z y : ZoneState) → keeps z self.old → y.entries ≡ z.entries ++ entry.now ∷ [] → IsHistory y.plain y.entries → keeps y self.new }
        ensures capacity { (n : ℕ) → capacity self.new n ≡ capacity self.old n }
        ensures handed { handed self.new ≡ handed self.old };
}
