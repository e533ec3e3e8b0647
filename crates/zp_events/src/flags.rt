//! The flags of a request.
ghost use Rattle.std.specs.Prelude.{◌≡◌};
ghost use Rattle.zp_events.specs.Flags.{is_both, is_high, names_of, with_name, zone_limit_of};

use crate::event::ZoneLimit;
use crate::words::{is_text, split_at_byte};

/// Which bits of a request's zone stand among its flags.
#[derive(Clone, Copy, Drop)]
struct ZoneNames {
    /// `__GFP_DMA`.
    dma: bool,
    /// `__GFP_DMA32`.
    dma32: bool,
    /// `__GFP_HIGHMEM` and `__GFP_MOVABLE` by one name.
    both: bool,
    /// `__GFP_HIGHMEM`.
    high: bool,
    /// `__GFP_MOVABLE`.
    movable: bool,
}

/// Whether a name stands for `__GFP_HIGHMEM` and `__GFP_MOVABLE`.
fn is_both(name: &[u8]) -> bool
    ensures { result ≡ is_both name.now }
{
    is_text(name, b"GFP_HIGHUSER_MOVABLE")
        | is_text(name, b"GFP_TRANSHUGE")
        | is_text(name, b"GFP_TRANSHUGE_LIGHT")
}

/// Whether it stands for `__GFP_HIGHMEM` alone.
fn is_high(name: &[u8]) -> bool
    ensures { result ≡ is_high name.now }
{
    is_text(name, b"GFP_HIGHUSER") | is_text(name, b"__GFP_HIGHMEM")
}

/// The bits, and those of one name more.
fn with_name(names: ZoneNames, name: &[u8]) -> ZoneNames
    ensures { result ≡ with_name names name.now }
{
    ZoneNames {
        dma: names.dma | is_text(name, b"GFP_DMA"),
        dma32: names.dma32 | is_text(name, b"GFP_DMA32"),
        both: names.both | is_both(name),
        high: names.high | is_high(name),
        movable: names.movable | is_text(name, b"__GFP_MOVABLE"),
    }
}

/// The bits of all names.
fn names_of(flags: &[u8]) -> ZoneNames
    ensures { result ≡ names_of flags.now }
{
    let mut names = ZoneNames {
        dma: false,
        dma32: false,
        both: false,
        high: false,
        movable: false,
    };
    let mut rest = flags;
    'names: while let Some((name, after)) = split_at_byte(rest, b'|') {
        names = with_name(names, name);
        rest = after;
    }
    with_name(names, rest)
}

/// The highest zone that a request with these flags allows.
pub fn zone_limit_of(flags: &[u8]) -> ZoneLimit
    ensures { result ≡ zone_limit_of flags.now }
{
    let names = names_of(flags);
    if names.dma {
        return ZoneLimit::Dma;
    }
    if names.dma32 {
        return ZoneLimit::Dma32;
    }
    if names.both | (names.high & names.movable) {
        return ZoneLimit::Movable;
    }
    ZoneLimit::Normal
}
