ghost use Rattle.std.specs.Prelude.{◌≡◌};
ghost use Rattle.svr_postpage.specs.Pairs.{first_pair};
ghost use Rattle.svr_long.specs.Heads.{are_heads, fits, heads, is_before_all};

use svr_postpage::{PageRef, Pair};

/// The first pair of a page.
pub fn first_pair(page: &PageRef) -> Pair
    ensures { result ≡ first_pair page.now }
{
    Pair {
        key: page.key,
        id: page.id,
    }
}

/// Whether the first pair of a page is within its range.
fn fits(page: &PageRef) -> bool
    ensures { result ≡ fits page.now }
{
    page.key < 1 << 48 && page.id < 1 << 63
}

/// Whether the first pair of a page stands in front of that of the first of others, if there is one.
fn first_before(page: &PageRef, pages: &[PageRef]) -> bool
    ensures { result ≡ is_before_all (first_pair page.now) (heads pages.now) }
{
    match pages.first() {
        Some(next) => first_pair(page).is_before(&first_pair(next)),
        None => true,
    }
}

/// Whether the first pairs of pages are within their range and in page order.
pub fn are_heads(pages: &[PageRef]) -> bool
    ensures { result ≡ are_heads pages.now }
{
    match pages.split_first() {
        Some((page, rest)) => fits(page) && first_before(page, rest) && are_heads(rest),
        None => true,
    }
}
