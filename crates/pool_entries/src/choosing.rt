// Which entry a take chooses by document 01, in a state that is judged in the same pass.
ghost use Rattle.std.specs.Prelude.{◌≡◌, ◌+◌, ◌<◌, ◌≤◌, length};
ghost use Rattle.pool_entries.specs.Rooms.{rooms_of};
ghost use Rattle.pool_entries.specs.Choose.{first_free_or_equal};
ghost use Rattle.pool_entries.specs.Calls.{chosen_as, choose_answer};
ghost use Rattle.pool_entries.specs.inner.Look.{Ends, SumTo, UpAt, FoundIs};

use crate::frees::{BLOCK, first_in};
use crate::held::HeldEntries;
use crate::judging::{entries_of, used_after};
use crate::rooms::Rooms;
use crate::same::{last_eight, up_by_end};
use crate::skips::{Step, length_at, skip};
use common::Refusal;
use common::sizes::MAX_BYTES;

// The place chosen, that after the last for a new entry; where its text starts; and the bytes that all texts use.
#[derive(Clone, Copy)]
pub struct Spot {
    pub place: usize,
    pub start: usize,
    pub used: usize,
}

// The first entry of from..to that can count up; with none, `to`. The entries before `from` use begin bytes.
// A walk: a step passes one entry, or as many as `skip` does.
pub(crate) fn scan(
    entries: HeldEntries<'_>,
    new: &[u8],
    word: u64,
    from: usize,
    to: usize,
    begin: usize,
) -> Step
    requires in_bounds { (from ≤ to) × (to ≤ entries.n) × (length new.now ≤ 268435455) }
    requires ends { Ends new.now word × SumTo entries.rooms.lengths.now from begin }
    ensures { UpAt entries.entry.n (rooms_of entries.entry.rooms) new.now from to result.0 result.1 }
{
    let Rooms {
        lengths,
        counts,
        text,
    } = entries.rooms;
    let size = new.len();
    let mut start = begin;
    let mut i = from;
    while i < to {
        let length = length_at(lengths, i);
        if length == size {
            let count = counts[i];
            if up_by_end(count, text, start, new, word) {
                return Step(i, start);
            }
            start += length;
            i += 1;
        } else {
            let s = skip(lengths, i + 1, to, size, start + length);
            start = s.1;
            i = s.0;
        }
    }
    Step(i, start)
}

// The first entry that is free or equal, in a state that may be unsound; with none, the place after the last.
fn search(entries: HeldEntries<'_>, new: &[u8]) -> Step
    requires { length new.now ≤ 268435455 }
    ensures { FoundIs entries.entry.n (rooms_of entries.entry.rooms) new.now result.0 result.1 }
{
    let word = last_eight(new);
    let mut start: usize = 0;
    let mut i = 0;
    for block in entries.rooms.counts[..entries.n].chunks(BLOCK) {
        let to = i + block.len();
        let s = scan(entries, new, word, i, i + first_in(block), start);
        if s.0 < to {
            return s;
        }
        start = s.1;
        i = to;
    }
    Step(i, start)
}

// The sizes and the soundness are judged, and the entry is chosen that a take of new is to have by document 01: the first that is free or equal.
pub fn choose(
    num_strings: usize,
    codepage: u32,
    rooms: Rooms<'_, '_>,
    new: &[u8],
) -> Result<Spot, Refusal>
    ensures { chosen_as result ≡ choose_answer first_free_or_equal num_strings codepage (rooms_of rooms.entry) new.now }
{
    if new.len() > MAX_BYTES {
        return Err(Refusal::OverSize);
    }
    let entries = entries_of(num_strings, codepage, rooms)?;
    let s = search(entries, new);
    let place = s.0;
    let start = s.1;
    let used = used_after(entries, place, start)?;
    Ok(Spot { place, start, used })
}
