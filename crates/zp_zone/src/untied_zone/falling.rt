//! Pages of a drain that are those of a run, the highest first. A list that was filled with pages in a row gives them back so, as the page that
//! came last is in front.
ghost use Rattle.std.specs.Prelude.{ℕ, ◌≡◌, ◌≤◌, ◌<◌, ◌+◌, length, slice_index_or, true};
ghost use Rattle.zp_zone.specs.Runs.{AreFalling};

use zp_model::PageNo;

/// Whether each of the pages is one less than the one before it, and the first of them one less than this page.
fn falls(first: u32, rest: &[PageNo]) -> bool
    requires { length rest.now ≤ first }
    ensures { result ≡ true → (d : ℕ) → d < length rest.now → slice_index_or rest.now d 0 + d + 1 ≡ first }
{
    let mut page = first;
    'pages: for next in rest {
        page -= 1;
        if next.number() != page {
            return false;
        }
    }
    true
}

/// Whether the pages are those of a run of three pages or more, the highest first.
// (in line, so that others are seen by two compares)
#[inline(always)]
pub fn is_falling(pages: &[PageNo]) -> bool
    ensures some { result ≡ true → 2 < length pages.now }
    ensures falling { result ≡ true → AreFalling pages.now }
{
    if pages.len() < 3 {
        return false;
    }
    let first = pages[0].number();
    let last = pages[pages.len() - 1].number();
    last < first && (first - last) as usize == pages.len() - 1 && falls(first, &pages[1..])
}
