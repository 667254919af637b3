// Of a load that is not refused, how many entries there are and how many bytes their texts take.
ghost use Rattle.std.specs.Prelude.{◌≡◌, ◌≤◌, length};
ghost use Rattle.common.specs.Answers.{gives, on_given};
ghost use Rattle.order.specs.Order.{load_fits_lem};
ghost use Rattle.pool_stream.specs.Entries.{pool_entries_lem};
ghost use Rattle.pool_stream.specs.Plan.{sizes_of, load_plan, planned_as};
ghost use Rattle.pool_stream.specs.inner.Sizes.{sized_as};

use crate::entry::{PoolEntry, first_entry};
use common::Refusal;
use order::{load_fits, streams_fit};

// A load of so many entries, whose texts take `used` bytes.
#[derive(Clone, Copy)]
pub struct LoadPlan {
    pub entries: usize,
    pub used: usize,
}

// How many entries a pool stream has, and the sum of their lengths.
#[derive(Clone, Copy)]
pub(crate) struct Sized {
    pub entries: usize,
    pub sum: u64,
}

// Judges a load: the pool stream, and the sizes of the entry room, the data stream and the text room.
pub(crate) fn plan_load(
    pool: &[u8],
    entries: usize,
    stream: usize,
    text: usize,
) -> Result<LoadPlan, Refusal>
    ensures { planned_as result ≡ sizes_of (load_plan pool.now entries stream text) }
{
    streams_fit(pool.len(), stream, text)?;
    let found = sizes(pool)?;
    plan_sized(found, entries, stream, text)
}

// The same where the sizes of the pool stream are found, with no entry cut.
fn plan_sized(found: Sized, entries: usize, stream: usize, text: usize) -> Result<LoadPlan, Refusal>
    ensures { planned_as result ≡ on_given (load_fits_lem found.entries found.sum entries stream text) (λ _. gives (found.entries, found.sum)) }
{
    load_fits(found.entries, found.sum, entries, stream, text)?;
    Ok(LoadPlan {
        entries: found.entries,
        used: found.sum as usize,
    })
}

// How many entries the pool stream has, and the sum of their lengths. A walk: an entry takes 4 or 8 bytes.
fn sizes(s: &[u8]) -> Result<Sized, Refusal>
    requires { (4 ≤ length s.now) × (length s.now ≤ 268435455) }
    ensures { sized_as result ≡ sizes_of (pool_entries_lem s.now) }
{
    let mut n: usize = 0;
    let mut sum: u64 = 0;
    let mut at: usize = 4;
    loop {
        let entry = first_entry(&s[at..]);
        match entry {
            PoolEntry::End { stray: _ } => return Ok(Sized { entries: n, sum }),
            PoolEntry::Cut => return Err(Refusal::EntryCut),
            PoolEntry::One {
                length,
                count: _,
                wide: _,
                size,
            } => {
                n += 1;
                sum += length as u64;
                at += size;
            }
        }
    }
}
