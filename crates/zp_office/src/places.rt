//! The places that zones' names stand for.
ghost use Rattle.std.specs.Prelude.{◌≡◌};
ghost use Rattle.std.specs.Str.{bytes_eq};
ghost use Rattle.zp_office.specs.Scripts.{number_of, names_of};

use zp_model::Name;
use zp_trace::ZoneLine;

/// Whether a zone has this name.
fn is_named(zone: &ZoneLine, name: Name) -> bool
    ensures { result ≡ bytes_eq zone.now.name name }
{
    zone.name.as_bytes() == name.as_bytes()
}

/// The place of the zone of this name; how many zones there are, where there is none.
pub fn number_of(zones: &[ZoneLine], name: Name) -> usize
    ensures { result ≡ number_of (names_of zones.now) name }
{
    for (place, zone) in zones.iter().enumerate() {
        if is_named(zone, name) {
            return place;
        }
    }
    zones.len()
}
