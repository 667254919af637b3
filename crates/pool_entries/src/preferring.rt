// Which entry a take chooses by default, in a state that is judged before.
ghost use Rattle.std.specs.Prelude.{◌≡◌, ◌≤◌, length};
ghost use Rattle.pool_entries.specs.Rooms.{rooms_of};
ghost use Rattle.pool_entries.specs.Choose.{equal_then_free_lem};
ghost use Rattle.pool_entries.specs.Calls.{chosen_as, choose_answer};
ghost use Rattle.pool_entries.specs.inner.Fit.{Fit};
ghost use Rattle.pool_entries.specs.inner.Look.{PreferredIs};

use crate::adding::add_up;
use crate::choosing::{Spot, scan};
use crate::frees::first_free;
use crate::held::HeldEntries;
use crate::judging::sound_entries;
use crate::rooms::Rooms;
use crate::same::last_eight;
use crate::skips::Step;
use common::Refusal;
use common::sizes::MAX_BYTES;

// The first entry that can count up, else the first free one; with neither, the place after the last.
fn equal_then_free(entries: HeldEntries<'_>, new: &[u8]) -> Step
    requires { Fit entries.n (rooms_of entries.rooms) × (length new.now ≤ 268435455) }
    ensures { PreferredIs entries.entry.n (rooms_of entries.entry.rooms) new.now result.0 result.1 }
{
    let n = entries.n;
    let word = last_eight(new);
    let s = scan(entries, new, word, 0, n, 0);
    if s.0 < n {
        return s;
    }
    let free = first_free(&entries.rooms.counts[..n]);
    if free < n {
        let before = add_up(&entries.rooms.lengths[..free]);
        return Step(free, before.sum as usize);
    }
    s
}

// The sizes and the soundness are judged, and the entry is chosen that a take of new is to have by default: one that can count up, wherever it
// stands, else the first free one, else a new one.
pub fn prefer(
    num_strings: usize,
    codepage: u32,
    rooms: Rooms<'_, '_>,
    new: &[u8],
) -> Result<Spot, Refusal>
    ensures { chosen_as result ≡ choose_answer equal_then_free_lem num_strings codepage (rooms_of rooms.entry) new.now }
{
    if new.len() > MAX_BYTES {
        return Err(Refusal::OverSize);
    }
    let state = sound_entries(num_strings, codepage, rooms)?;
    let s = equal_then_free(state.entries, new);
    Ok(Spot {
        place: s.0,
        start: s.1,
        used: state.used,
    })
}
