// What a take or a drop is to do to one entry of the lent rooms: settled before a byte is touched, and done here alone.
ghost use Rattle.std.specs.Prelude.{◌≡◌, ◌≤◌, ◌<◌, ◌^◌, length, take, get_or};
ghost use Rattle.common.specs.Lists.{total};
ghost use Rattle.stringpool.specs.Pool.{rooms_held, SameRooms};
ghost use Rattle.stringpool.specs.inner.Plan.{carried, Ready};

use pool_entries::RoomsMut;
use text_room::{Part, replace};

#[derive(Clone, Copy)]
pub(crate) enum Plan {
    // The entry at a place gets another count.
    Count(usize, u16),
    // The entry at `at` gets a count, and a text in the place of a part of the room.
    Put { at: usize, part: Part, count: u16 },
}

// Does what is planned; the text that is put is new.
pub(crate) fn carry_out(plan: Plan, rooms: &mut RoomsMut<'_>, new: &[u8])
    requires { Ready plan (rooms_held rooms.old) new.now }
    ensures same { SameRooms rooms.old rooms.new }
    ensures done { rooms_held rooms.new ≡ carried plan (rooms_held rooms.old) new.now }
{
    match plan {
        Plan::Count(at, count) => {
            rooms.counts[at] = count;
        }
        Plan::Put { at, part, count } => {
            replace(rooms.text, part, new).unwrap();
            rooms.lengths[at] = new.len() as u32;
            rooms.counts[at] = count;
        }
    }
}

// The count of the entry k of n, 0 past the end.
pub(crate) fn count_of(n: usize, counts: &[u16], k: usize) -> u16
    requires { n ≤ length counts.now }
    ensures { result ≡ get_or (take n counts.now) k 0 }
{
    counts[..n].get(k).copied().unwrap_or(0)
}

// Where the text of the entry k starts: the sum of the lengths before it.
pub(crate) fn start_of(lengths: &[u32], k: usize) -> usize
    requires { (k ≤ length lengths.now) × (total (take k lengths.now) < 2 ^ 64) }
    ensures { result ≡ total (take k lengths.now) }
{
    lengths[..k].iter().map(|size| *size as usize).sum()
}
