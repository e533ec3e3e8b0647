//! A link to a page, or to none, in four bytes.
ghost use Rattle.std.specs.Prelude.{◌≡◌, ◌<◌, ◌≤◌, Option, None, Some, IfSome, ℕ};
ghost use Rattle.zp_model.specs.declared.constants.TheConstants.{MAX_PAGES};
ghost use Rattle.zp_table.specs.Links.{page_of, number_of};

use std::marker::Model;
use zp_model::{MAX_PAGES, PageAt};

/// A page, or none. Contracts see it as the option that it is; a number past all pages stands for none.
#[derive(Clone, Copy, PartialEq, Eq, Debug, Drop)]
pub struct Link {
    number: u32,
}

impl Model for Link {
    ghost use Rattle.std.specs.Prelude.{Option, ℕ, ◌≤◌};
    ghost use Rattle.zp_model.specs.declared.constants.TheConstants.{MAX_PAGES};
    ghost use Rattle.zp_table.specs.Links.{page_of, number_of, number_of-page_of};

    ghost Value = { Option ℕ };

    ghost view = { λ l. page_of MAX_PAGES l.number };

    ghost invariant = { λ l. l.number ≤ MAX_PAGES };

    ghost inverse = { λ o. record { number = number_of MAX_PAGES o } };

    ghost inverse_ok = { λ l h i. record { number = number_of-page_of MAX_PAGES l.number h i } };
}

impl Link {
    /// The link to no page.
    pub fn none() -> Link
        ensures { result ≡ None }
    {
        Link { number: MAX_PAGES }
    }

    /// The link to this page.
    pub fn to(at: PageAt) -> Link
        ensures { result ≡ Some at }
    {
        Link {
            number: at.number(),
        }
    }

    /// The page that it links to, if there is one.
    pub fn page(self) -> Option<PageAt>
        ensures { result ≡ self }
    {
        if self.number < MAX_PAGES {
            Some(PageAt::at(self.number))
        } else {
            None
        }
    }

    /// The page's number, or `MAX_PAGES`.
    pub(crate) fn number(self) -> u32
        ensures same { result ≡ number_of MAX_PAGES self }
        ensures within { result ≤ MAX_PAGES }
        ensures fits { IfSome self (λ page. page < MAX_PAGES) }
    {
        self.number
    }

    /// The page's number, or `none` where there is no page, or none below that.
    pub(crate) fn number_below(self, none: u32) -> u32
        requires { none ≤ MAX_PAGES }
        ensures same { result ≡ number_of none self }
        ensures within { result ≤ none }
    {
        self.number.min(none)
    }

    /// The link of this number.
    pub(crate) fn numbered(number: u32) -> Link
        requires { number ≤ MAX_PAGES }
        ensures { result ≡ page_of MAX_PAGES number }
    {
        Link { number }
    }
}
