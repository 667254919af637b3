// Loading the entries of a pool stream into the lent lengths and counts.
ghost use Rattle.std.specs.Prelude.{◌≡◌, min, length};
ghost use Rattle.std.proofs.Math.Seq.{paste};
ghost use Rattle.pool_entries.specs.Entries.{rooms};
ghost use Rattle.pool_entries.specs.Rooms.{rooms_held, SameRooms};
ghost use Rattle.pool_stream.specs.Plan.{entries_outcome, planned_as};
ghost use Rattle.pool_stream.specs.inner.Sizes.{lengths_in, counts_in, Filling};

use crate::entry::{PoolEntry, first_entry};
use crate::plan::{LoadPlan, plan_load};
use common::Refusal;
use pool_entries::RoomsMut;

// Judges a load, by a data stream of that size too, and writes the lengths and counts of the entries. The text room is not written here, so it
// is lent to be read alone.
pub fn load_entries(
    pool: &[u8],
    stream: usize,
    lengths: &mut [u32],
    counts: &mut [u16],
    text: &[u8],
) -> Result<LoadPlan, Refusal>
    ensures { (planned_as result, rooms lengths.new counts.new text.now)
        ≡ entries_outcome pool.now stream (rooms lengths.old counts.old text.now) }
{
    let entries = entry_room(lengths.len(), counts.len());
    let plan = plan_load(pool, entries, stream, text.len())?;
    fill(pool, plan.entries, lengths, counts);
    Ok(plan)
}

// The same where the rooms are lent as one.
pub fn load_rooms(pool: &[u8], stream: usize, rooms: &mut RoomsMut<'_>) -> Result<LoadPlan, Refusal>
    ensures same { SameRooms rooms.old rooms.new }
    ensures outcome { (planned_as result, rooms_held rooms.new) ≡ entries_outcome pool.now stream (rooms_held rooms.old) }
{
    let entries = entry_room(rooms.lengths.len(), rooms.counts.len());
    let plan = plan_load(pool, entries, stream, rooms.text.len())?;
    fill(pool, plan.entries, rooms.lengths, rooms.counts);
    Ok(plan)
}

// The entry room: the shorter of the lent lengths and counts.
pub fn entry_room(lengths: usize, counts: usize) -> usize
    ensures { result ≡ min lengths counts }
{
    lengths.min(counts)
}

// Writes the lengths and counts of the n entries of the pool stream. A walk: an entry takes 4 or 8 bytes.
fn fill(s: &[u8], n: usize, lengths: &mut [u32], counts: &mut [u16])
    requires { Filling s.now n (length lengths.old) (length counts.old) }
    ensures { (lengths.new ≡ paste lengths.old 0 (lengths_in s.now) n)
        × (counts.new ≡ paste counts.old 0 (counts_in s.now) n) }
{
    let mut at: usize = 4;
    for i in 0..n {
        let entry = first_entry(&s[at..]);
        let PoolEntry::One {
            length,
            count,
            wide: _,
            size,
        } = entry
        else {
            return;
        };
        lengths[i] = length;
        counts[i] = count;
        at += size;
    }
}
