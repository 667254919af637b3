// The orders of a load.
ghost use Rattle.std.specs.Prelude.{◌≡◌, ◌||◌};
ghost use Rattle.common.specs.Choice.{◌<?◌};
ghost use Rattle.common.specs.Sizes.{max_bytes};
ghost use Rattle.common.specs.Refusals.{answered};
ghost use Rattle.order.specs.Order.{streams_fit_lem, load_fits_lem};

use common::Refusal;
use common::sizes::{MAX_BYTES, MAX_ENTRIES};

// A load, by the sizes of its streams and of the text room.
pub fn streams_fit(pool: usize, stream: usize, text: usize) -> Result<(), Refusal>
    ensures { answered result ≡ streams_fit_lem pool stream text }
{
    if over_size(pool, stream, text) {
        return Err(Refusal::OverSize);
    }
    if pool < 4 {
        return Err(Refusal::PoolStreamShort);
    }
    Ok(())
}

fn over_size(pool: usize, stream: usize, text: usize) -> bool
    ensures { result ≡ (max_bytes <? pool || max_bytes <? stream || max_bytes <? text) }
{
    pool > MAX_BYTES || stream > MAX_BYTES || text > MAX_BYTES
}

// A load of n entries, none cut, whose texts take used bytes.
pub fn load_fits(
    n: usize,
    used: u64,
    entries: usize,
    stream: usize,
    text: usize,
) -> Result<(), Refusal>
    ensures { answered result ≡ load_fits_lem n used entries stream text }
{
    if n > MAX_ENTRIES {
        return Err(Refusal::TooManyEntries);
    }
    if n > entries {
        return Err(Refusal::EntryRoom);
    }
    if used > stream as u64 {
        return Err(Refusal::DataStreamShort);
    }
    if used > text as u64 {
        return Err(Refusal::TextRoom);
    }
    Ok(())
}
