//! What a zone and its seats agree about, and what each request makes of it. No value of it is made: it is in contracts alone.
use crate::untied_zone::UntiedZone;
use std::marker::{Brand, Model, PhantomData};
use zp_tie::{Act, Parted};

/// The plain zone, and the entries made so far.
pub struct Books {
    nothing: (),
}

impl Model for Books {
    ghost use Rattle.zp_model.specs.Books.{Books, blank};

    ghost Value = { Books };

    ghost view = { λ b. blank };
}

/// What is one worker's: its blocks out, and its entries.
pub struct Part {
    nothing: (),
}

impl Model for Part {
    ghost use Rattle.zp_model.specs.Books.{Part, part, blank};

    ghost Value = { Part };

    ghost view = { λ b. part 0 blank };
}

/// Each worker's part of the books.
pub struct Parts;

impl Parted<Books, Part> for Parts {
    ghost use Rattle.zp_model.specs.Books.{blank, part};

    ghost start = { blank };

    ghost part = { part };
}

/// The books are opened with a zone.
pub struct Opens;

impl Act<Books, UntiedZone> for Opens {
    ghost use Rattle.zp_model.specs.Books.{opened};

    ghost to = { λ w z b. opened z.plain };
}

/// What a worker asks of the zone. Each call picks it.
pub trait Asks {
    ghost use Rattle.zp_model.specs.declared.request.Request.{Request};

    ghost request: { Request };
}

impl Asks for Brand {
    ghost use Rattle.zp_model.specs.declared.request.Request.TheVariants.{Collect};

    ghost request = { Collect };
}

/// A request is entered, whatever is asked.
pub struct Enters<Q> {
    of: PhantomData<Q>,
}

impl<T, Q: Asks> Act<Books, T> for Enters<Q> {
    ghost use Rattle.zp_model.specs.Books.{entered};

    ghost to = { λ w a b. entered w Q.request b };
}
