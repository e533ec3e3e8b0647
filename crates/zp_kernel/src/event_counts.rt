//! What came of a kernel's page events, counted.
ghost use Rattle.std.specs.Prelude.{◌≡◌};
ghost use Rattle.zp_kernel.specs.Counts.{none_counted, none_of_types, noted, noted_of_type, one_more, origin_noted, pages_back, pages_out};

use zp_model::{MigrateType, Origin, Refused};

/// What comes of an event, or on the way.
#[derive(Clone, Copy, PartialEq, Eq, Debug, Drop)]
pub enum Happening {
    /// A request was met.
    Given,
    /// A zone met a request for this type by a block whose pageblock it gave this type first.
    Claimed(MigrateType),
    /// A zone met a request for this type by a block of a pageblock that keeps another type.
    Borrowed(MigrateType),
    /// A request was refused, or a block that goes back.
    Refused(Refused),
    /// A request for a block that is too large for the zones.
    TooLarge,
    /// A request of a type that the zones do not have.
    OtherType,
    /// A block was handed out whose frame holds one still.
    Again,
    /// The kernel itself had no block.
    KernelRefused,
    /// The kernel met a request out of the free pages of another type.
    Fallback,
    /// A block was freed whole.
    Freed,
    /// A part of a block was freed.
    Part,
    /// A block was freed that is larger than the one that its frame holds.
    Larger,
    /// A block was freed of which nothing is known.
    Unknown,
    /// A block was freed by another worker than the one that got it.
    Passed,
}

/// How often it happened, by the type of the request. A count stays at the largest number.
#[derive(Clone, Copy, PartialEq, Eq, Debug, Drop)]
pub struct TypeCounts {
    pub unmovable: u64,
    pub reclaimable: u64,
    pub movable: u64,
}

/// How often each happened; and how many pages the blocks have that frames hold. A count stays at the largest number.
#[derive(Clone, Copy, PartialEq, Eq, Debug, Drop)]
pub struct EventCounts {
    pub given: u64,
    /// What came off a worker's list is not counted here; a refill of a list counts once, by its first page.
    pub claims: TypeCounts,
    pub borrows: TypeCounts,
    /// Refused 10.
    pub below_mark: u64,
    /// Refused 11.
    pub no_block: u64,
    /// Refused 12.
    pub nothing_posted: u64,
    /// Refused 20.
    pub not_lent: u64,
    /// Refused by any other number.
    pub other_refusals: u64,
    pub too_large: u64,
    pub other_type: u64,
    pub again: u64,
    pub kernel_refused: u64,
    pub fallbacks: u64,
    pub freed: u64,
    pub parts: u64,
    pub larger: u64,
    pub unknown: u64,
    pub passed: u64,
    /// The pages now.
    pub out: u64,
    /// The most that they ever were.
    pub most_out: u64,
}

/// One more than a count.
pub fn one_more(count: u64) -> u64
    ensures { result ≡ one_more count }
{
    count.saturating_add(1)
}

impl TypeCounts {
    /// It has not happened.
    pub fn none() -> TypeCounts
        ensures { result ≡ none_of_types }
    {
        TypeCounts {
            unmovable: 0,
            reclaimable: 0,
            movable: 0,
        }
    }

    /// It happened once more, to a request for this type.
    fn note(&mut self, kind: MigrateType)
        ensures { self.new ≡ noted_of_type kind self.old }
    {
        match kind {
            MigrateType::Unmovable => self.unmovable = one_more(self.unmovable),
            MigrateType::Reclaimable => self.reclaimable = one_more(self.reclaimable),
            MigrateType::Movable => self.movable = one_more(self.movable),
        }
    }
}

impl EventCounts {
    /// Before the first event.
    pub fn none() -> EventCounts
        ensures { result ≡ none_counted }
    {
        EventCounts {
            given: 0,
            claims: TypeCounts::none(),
            borrows: TypeCounts::none(),
            below_mark: 0,
            no_block: 0,
            nothing_posted: 0,
            not_lent: 0,
            other_refusals: 0,
            too_large: 0,
            other_type: 0,
            again: 0,
            kernel_refused: 0,
            fallbacks: 0,
            freed: 0,
            parts: 0,
            larger: 0,
            unknown: 0,
            passed: 0,
            out: 0,
            most_out: 0,
        }
    }

    /// It happened once more.
    pub(crate) fn note(&mut self, happening: Happening)
        ensures { self.new ≡ noted happening self.old }
    {
        match happening {
            Happening::Given => self.given = one_more(self.given),
            Happening::Claimed(kind) => self.claims.note(kind),
            Happening::Borrowed(kind) => self.borrows.note(kind),
            Happening::Refused(Refused::BelowMark) => self.below_mark = one_more(self.below_mark),
            Happening::Refused(Refused::NoBlock) => self.no_block = one_more(self.no_block),
            Happening::Refused(Refused::NothingPosted) => self.nothing_posted = one_more(
                self.nothing_posted,
            ),
            Happening::Refused(Refused::NotLent) => self.not_lent = one_more(self.not_lent),
            Happening::Refused(_) => self.other_refusals = one_more(self.other_refusals),
            Happening::TooLarge => self.too_large = one_more(self.too_large),
            Happening::OtherType => self.other_type = one_more(self.other_type),
            Happening::Again => self.again = one_more(self.again),
            Happening::KernelRefused => self.kernel_refused = one_more(self.kernel_refused),
            Happening::Fallback => self.fallbacks = one_more(self.fallbacks),
            Happening::Freed => self.freed = one_more(self.freed),
            Happening::Part => self.parts = one_more(self.parts),
            Happening::Larger => self.larger = one_more(self.larger),
            Happening::Unknown => self.unknown = one_more(self.unknown),
            Happening::Passed => self.passed = one_more(self.passed),
        }
    }

    /// A block that was given for this type came from there.
    pub(crate) fn note_origin(&mut self, origin: Option<Origin>, kind: MigrateType)
        ensures { self.new ≡ origin_noted origin kind self.old }
    {
        match origin {
            Some(Origin::Claimed) => self.note(Happening::Claimed(kind)),
            Some(Origin::Borrowed) => self.note(Happening::Borrowed(kind)),
            Some(Origin::Own) | None => (),
        }
    }

    /// So many pages more are out.
    pub(crate) fn note_out(&mut self, pages: u32)
        ensures { self.new ≡ pages_out pages self.old }
    {
        self.out = self.out.saturating_add(u64::from(pages));
        self.most_out = self.most_out.max(self.out);
    }

    /// So many pages came back.
    pub(crate) fn note_back(&mut self, pages: u32)
        ensures { self.new ≡ pages_back pages self.old }
    {
        self.out = self.out.saturating_sub(u64::from(pages));
    }
}
