//! Why there is no picture.
ghost use Rattle.std.specs.Prelude.{◌≡◌};

use std::alloc::AllocError;
use std::error::Error;
use std::fmt::{Display, Formatter};
use std::{fmt, io};
use zp_model::Refused;

/// Why a picture was not drawn, or not to its end.
#[derive(Clone, Copy, PartialEq, Eq, Debug, Drop)]
pub enum PictureFault {
    /// There is no memory.
    Memory,
    /// The writer failed.
    Write,
}

impl Display for PictureFault {
    fn fmt<W: fmt::Write>(&self, f: &mut Formatter<W>) -> fmt::Result {
        f.write_str(match self {
            PictureFault::Memory => "no memory",
            PictureFault::Write => "cannot write",
        })
    }
}

impl Error for PictureFault {}

impl From<AllocError> for PictureFault {
    ghost use Rattle.zp_pictures.specs.declared.fault.PictureFault.TheVariants.{Memory};

    ghost from_gives = { λ _ e. e ≡ Memory };

    fn from(_e: AllocError) -> PictureFault {
        PictureFault::Memory
    }
}

impl From<io::Error> for PictureFault {
    ghost use Rattle.zp_pictures.specs.declared.fault.PictureFault.TheVariants.{Write};

    ghost from_gives = { λ _ e. e ≡ Write };

    fn from(_e: io::Error) -> PictureFault {
        PictureFault::Write
    }
}

/// A replay is refused for want of memory alone.
impl From<Refused> for PictureFault {
    ghost use Rattle.zp_pictures.specs.declared.fault.PictureFault.TheVariants.{Memory};

    ghost from_gives = { λ _ e. e ≡ Memory };

    fn from(_e: Refused) -> PictureFault {
        PictureFault::Memory
    }
}
