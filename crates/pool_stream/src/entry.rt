// One entry of a pool stream.
ghost use Rattle.std.specs.Prelude.{◌≡◌, ◌≤◌, length};
ghost use Rattle.pool_stream.specs.Entries.{entry_in, short_of, entry_bytes};
ghost use Rattle.pool_stream.specs.inner.Found.{found_as};
ghost use Rattle.pool_stream.specs.Entries as entries;

use little_endian::read;

// What stands at the front of the bytes that are left of a pool stream. A load does not ask for `wide` and `stray`: they are for a check
// that a stream is tidy (document 02, E13), whose rules forbid a 4-byte length up to 65,535 and a stray byte.
#[derive(Clone, Copy)]
pub(crate) enum PoolEntry {
    One {
        length: u32,
        count: u16,
        wide: bool,
        size: usize,
    },
    Cut,
    End {
        stray: usize,
    },
}

// The entry at the front of `left`, which is wide where its length took the 4-byte form.
pub(crate) fn first_entry(left: &[u8]) -> PoolEntry
    ensures { found_as result ≡ entry_in left.now }
{
    let n = left.len();
    if n < 2 {
        return PoolEntry::End { stray: n };
    }
    if n < 4 {
        return PoolEntry::Cut;
    }
    let length = read(left, 0, 2);
    let count = read(left, 2, 2);
    if length != 0 || count == 0 {
        return PoolEntry::One {
            length,
            count: count as u16,
            wide: false,
            size: 4,
        };
    }
    if n < 8 {
        return PoolEntry::Cut;
    }
    PoolEntry::One {
        length: read(left, 4, 4),
        count: count as u16,
        wide: true,
        size: 8,
    }
}

// The length if it fits two bytes, else 0.
pub(crate) fn short_of(size: u32) -> u32
    ensures { result ≡ short_of size }
{
    if size <= 65535 { size } else { 0 }
}

// Whether the 4-byte length follows.
pub(crate) fn wide(size: u32, count: u16) -> bool
    ensures { result ≡ entries.wide size count }
{
    short_of(size) == 0 && count > 0
}

// How many bytes an entry takes.
pub(crate) fn entry_size(size: u32, count: u16) -> usize
    ensures { (result ≡ length (entry_bytes size count)) × (result ≤ 8) }
{
    if wide(size, count) { 8 } else { 4 }
}
