//! The name of a row of zones.

use std::marker::Brand;

/// Names a row of zones: at each place, what never changes of the zone there, and its board. Whoever shares zones picks it, once they
/// are opened.
pub trait Naming {
    ghost use Rattle.std.specs.Prelude.{List};
    ghost use Rattle.zp_counts.specs.CountBoards.{BoardState};
    ghost use Rattle.zp_share.specs.Shares.{ZoneKey};

    ghost zones: { List ZoneKey };

    ghost boards: { List BoardState };
}

impl Naming for Brand {
    ghost use Rattle.std.specs.Prelude.{[]};

    ghost zones = { [] };

    ghost boards = { [] };
}

/// Names what the readers of a row had seen when a view was lent them, in their order; of readers past its end it names nothing.
pub trait Earlier {
    ghost use Rattle.std.specs.Prelude.{List};
    ghost use Rattle.zp_model.specs.declared.counts.Counts.{Counts};

    ghost seen: { List (List Counts) };
}

impl Earlier for Brand {
    ghost use Rattle.std.specs.Prelude.{[]};

    ghost seen = { [] };
}

impl Earlier for () {
    ghost use Rattle.std.specs.Prelude.{[]};

    ghost seen = { [] };
}
