// Writing a pool stream.
ghost use Rattle.std.specs.Prelude.{◌≡◌, ◌+◌, ◌*◌, ◌≤◌, length, map, sum, take};
ghost use Rattle.std.specs.List.{zip};
ghost use Rattle.common.specs.Lists.{over_at};
ghost use Rattle.common.specs.Answers.{outcome, written_to};
ghost use Rattle.common.specs.Refusals.{answered};
ghost use Rattle.pool_entries.specs.Rooms.{rooms_of};
ghost use Rattle.pool_stream.specs.Entries.{entry_bytes, mark_of};
ghost use Rattle.pool_stream.specs.Write.{stream_outcome};
ghost use Rattle.pool_stream.specs.inner.Write.{entries_bytes, stream_by};

use crate::entry::{entry_size, short_of, wide};
use common::Refusal;
use little_endian::write;
use pool_entries::{HeldEntries, Rooms, sound_entries};

// Judges a state, and writes its pool stream: the mark and num_strings entries.
pub fn write_stream(
    num_strings: usize,
    long_string_refs: bool,
    codepage: u32,
    rooms: Rooms<'_, '_>,
    out: &mut [u8],
) -> Result<usize, Refusal>
    ensures { (answered result, out.new) ≡ stream_outcome num_strings long_string_refs codepage (rooms_of rooms.entry) out.old }
{
    let state = sound_entries(num_strings, codepage, rooms)?;
    write_fitting(mark(long_string_refs, codepage), state.entries, out)
}

// The code page, with bit 31 for long references.
fn mark(long: bool, codepage: u32) -> u32
    requires { codepage ≤ 2147483647 }
    ensures { result ≡ mark_of long codepage }
{
    if long {
        return codepage + 0x8000_0000;
    }
    codepage
}

// Writes a mark and the entries.
fn write_fitting(mark: u32, entries: HeldEntries<'_>, out: &mut [u8]) -> Result<usize, Refusal>
    ensures { (answered result, out.new) ≡ outcome out.old
        (written_to out.old (stream_by mark entries.entry.n entries.entry.rooms.lengths.now entries.entry.rooms.counts.now)) }
{
    let lengths = &entries.rooms.lengths[..entries.n];
    let counts = &entries.rooms.counts[..entries.n];
    let size = stream_size(lengths, counts);
    if out.len() < size {
        return Err(Refusal::OutputRoom);
    }
    let _ = write(mark, 4, out, 0);
    write_entries(lengths, counts, out);
    Ok(size)
}

// How many bytes entries take.
fn entries_size(lengths: &[u32], counts: &[u16]) -> usize
    requires { length lengths.now ≤ 16777215 }
    ensures { result ≡ sum (map (λ p. length (entry_bytes p.0 p.1)) (zip lengths.now counts.now)) }
{
    lengths
        .iter()
        .zip(counts)
        .map(|(size, count)| entry_size(*size, *count))
        .sum()
}

// How many bytes a mark and entries take.
fn stream_size(lengths: &[u32], counts: &[u16]) -> usize
    requires { length lengths.now ≤ 16777215 }
    ensures { result ≡ 4 + length (entries_bytes lengths.now counts.now) }
{
    4 + entries_size(lengths, counts)
}

// Writes an entry at `at`, and answers how many bytes it takes.
fn write_entry(size: u32, count: u16, out: &mut [u8], at: usize) -> usize
    requires { at + length (entry_bytes size count) ≤ length out.old }
    ensures { (result ≡ length (entry_bytes size count)) × (out.new ≡ over_at at (entry_bytes size count) out.old) }
{
    let _ = write(short_of(size), 2, out, at);
    let _ = write(count as u32, 2, out, at + 2);
    if wide(size, count) {
        let _ = write(size, 4, out, at + 4);
        return 8;
    }
    4
}

// Writes entries from the output's byte 4 on.
fn write_entries(lengths: &[u32], counts: &[u16], out: &mut [u8])
    requires { 4 + length (entries_bytes lengths.now counts.now) ≤ length out.old }
    ensures { out.new ≡ over_at 4 (entries_bytes lengths.now counts.now) out.old }
{
    let mut at: usize = 4;
    for (size, count) in lengths.iter().zip(counts) {
        at += write_entry(*size, *count, out, at);
    }
}
