// The orders of what changes a pool: its code page, a take, a drop.
ghost use Rattle.std.specs.Prelude.{◌≡◌, not, ◌&&◌};
ghost use Rattle.common.specs.Choice.{◌≤?◌};
ghost use Rattle.common.specs.Refusals.{answered};
ghost use Rattle.order.specs.Order.{page_fits_lem, add_fits_lem, drop_fits_lem};

use common::Refusal;
use common::sizes::{MAX_CODEPAGE, MAX_ENTRIES};

pub fn page_fits(codepage: u32) -> Result<(), Refusal>
    ensures { answered result ≡ page_fits_lem codepage }
{
    if codepage > MAX_CODEPAGE {
        return Err(Refusal::CodepageRange);
    }
    Ok(())
}

// A take that adds an entry to n; the texts take after bytes then.
pub fn add_fits(
    long: bool,
    n: usize,
    entries: usize,
    after: usize,
    text: usize,
) -> Result<(), Refusal>
    ensures { answered result ≡ add_fits_lem long n entries after text }
{
    if short_full(long, n) {
        return Err(Refusal::ShortReferencesFull);
    }
    if n >= MAX_ENTRIES {
        return Err(Refusal::EntriesFull);
    }
    if n >= entries {
        return Err(Refusal::EntryRoom);
    }
    if after > text {
        return Err(Refusal::TextRoom);
    }
    Ok(())
}

// Whether short references leave no number for a new entry.
fn short_full(long: bool, n: usize) -> bool
    ensures { result ≡ (not long && 65535 ≤? n) }
{
    !long && n >= 65535
}

// A drop at the place `at` of n, on an entry with that count.
pub fn drop_fits(n: usize, at: usize, count: u16) -> Result<(), Refusal>
    ensures { answered result ≡ drop_fits_lem n at count }
{
    if at >= n {
        return Err(Refusal::DropPastEnd);
    }
    if count == 0 {
        return Err(Refusal::CountZero);
    }
    Ok(())
}
