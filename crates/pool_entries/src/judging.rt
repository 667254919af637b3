// Whether a state is within the sizes and sound, and how many bytes its texts use.
ghost use Rattle.std.specs.Prelude.{◌≡◌, ◌≤◌, length};
ghost use Rattle.std.specs.List.{list_all, zip};
ghost use Rattle.common.specs.Refusals.{answered};
ghost use Rattle.pool_entries.specs.Rooms.{rooms_of};
ghost use Rattle.pool_entries.specs.Calls.{judge_answer, sound_answer, sound_as};
ghost use Rattle.pool_entries.specs.inner.Look.{SumTo, SmallTo};
ghost use Rattle.pool_entries.specs.inner.Sound.{small_b, used_of};
ghost use Rattle.pool_entries.specs.inner.Held.{entries_answer, entries_as};

use crate::adding::add_up;
use crate::held::{HeldEntries, SoundEntries};
use crate::rooms::Rooms;
use common::Refusal;
use common::sizes::{MAX_BYTES, MAX_CODEPAGE, MAX_ENTRIES};

// Every call on a pool judges its text room's size first, and then its soundness: how many bytes the texts of a sound state use.
pub fn judge(num_strings: usize, codepage: u32, rooms: Rooms<'_, '_>) -> Result<usize, Refusal>
    ensures { answered result ≡ judge_answer num_strings codepage (rooms_of rooms.entry) }
{
    Ok(sound_entries(num_strings, codepage, rooms)?.used)
}

// The same, with the entries of the sound state.
pub fn sound_entries<'a>(
    num_strings: usize,
    codepage: u32,
    rooms: Rooms<'a, 'a>,
) -> Result<SoundEntries<'a>, Refusal>
    ensures { sound_as result ≡ sound_answer num_strings codepage (rooms_of rooms.entry) }
{
    let entries = entries_of(num_strings, codepage, rooms)?;
    let used = used_after(entries, 0, 0)?;
    Ok(SoundEntries { entries, used })
}

// The text room's size is judged; entries fit their rooms and number at most 16,777,215, and the code page has 31 bits.
pub(crate) fn entries_of<'a>(
    n: usize,
    codepage: u32,
    rooms: Rooms<'a, 'a>,
) -> Result<HeldEntries<'a>, Refusal>
    ensures { entries_as result ≡ entries_answer n codepage (rooms_of rooms.entry) }
{
    if rooms.text.len() > MAX_BYTES {
        return Err(Refusal::OverSize);
    }
    if n > rooms.lengths.len() {
        return Err(Refusal::Unsound);
    }
    if n > rooms.counts.len() {
        return Err(Refusal::Unsound);
    }
    if n > MAX_ENTRIES {
        return Err(Refusal::Unsound);
    }
    if codepage > MAX_CODEPAGE {
        return Err(Refusal::Unsound);
    }
    Ok(HeldEntries { n, rooms })
}

// The bytes that the entries use, where those before `at` use start bytes and none of them is free and long.
pub(crate) fn used_after(
    entries: HeldEntries<'_>,
    at: usize,
    start: usize,
) -> Result<usize, Refusal>
    requires at_in_bounds { at ≤ entries.n }
    requires sum_to { SumTo entries.rooms.lengths.now at start × SmallTo entries.n entries.rooms.lengths.now entries.rooms.counts.now at }
    ensures { answered result ≡ used_of entries.entry.n (rooms_of entries.entry.rooms) }
{
    let Rooms {
        lengths,
        counts,
        text,
    } = entries.rooms;
    let s = add_up(&lengths[at..entries.n]);
    let used = start + s.sum as usize;
    if used > text.len() {
        return Err(Refusal::Unsound);
    }
    if s.bits <= 65535 {
        return Ok(used);
    }
    if all_small(&lengths[..entries.n], &counts[..entries.n]) {
        return Ok(used);
    }
    Err(Refusal::Unsound)
}

// Whether each free entry, by its length and its count, has at most 65,535 bytes: looked at only where some entry has more.
fn all_small(lengths: &[u32], counts: &[u16]) -> bool
    ensures { result ≡ list_all (λ p. small_b p.0 p.1) (zip lengths.now counts.now) }
{
    lengths
        .iter()
        .zip(counts)
        .all(|(size, count)| small(*size, *count))
}

// An entry with count 0 has at most 65,535 bytes.
fn small(size: u32, count: u16) -> bool
    ensures { result ≡ small_b size count }
{
    count != 0 || size <= 65535
}
