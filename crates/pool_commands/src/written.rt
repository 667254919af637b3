// The streams of the pool, written.
use crate::adler::adler;
use commands::words::front;
use commands::{kept, places, shown};
use common::Refusal;
use room_commands::Desk;
use std::io;
use std::io::Write;
use stringpool::{Rooms, StringPool};

// What a pool stream has at most: four bytes, and eight for each entry.
pub(crate) fn enough(entries: usize) -> usize {
    8 * entries.min(70_000) + 4
}

// A stream by the call that writes it, into an output that needs as much as is enough.
pub(crate) fn write<W: Write, F: FnOnce(&mut [u8]) -> Result<usize, Refusal>>(
    w: &mut W,
    desk: Desk,
    enough: usize,
    out: &mut [u8],
    call: F,
) -> io::Result<Desk>
    requires { F.IsAlwaysCallable call }
{
    let n = places::of(out, desk.output(enough));
    kept::fill(&mut out[..n]);
    match call(&mut out[..n]) {
        Ok(bytes) => {
            shown::say(w, b"ok ")?;
            shown::bytes(w, front(out, bytes))?;
        }
        Err(why) => shown::refused(w, why)?,
    }
    Ok(desk.leaves(n, 1))
}

fn summed<W: Write>(w: &mut W, written: &[u8]) -> io::Result<()> {
    write!(w, "{} {}", written.len(), adler(written))
}

// The length and the Adler-32 of the pool stream; then of the data stream. What the pool stream was written of is sound, and the output
// has room for the data.
pub(crate) fn sum<W: Write>(
    w: &mut W,
    desk: Desk,
    rooms: Rooms<'_, '_>,
    out: &mut [u8],
) -> io::Result<Desk> {
    let pool = desk.pool;
    match pool.write_pool(rooms, &mut *out) {
        Ok(n) => {
            shown::say(w, b"ok ")?;
            summed(w, front(out, n))?;
            shown::say(w, b" ")?;
            data_sum(w, pool, rooms, out)?;
        }
        Err(why) => shown::refused(w, why)?,
    }
    Ok(desk)
}

fn data_sum<W: Write>(
    w: &mut W,
    pool: StringPool,
    rooms: Rooms<'_, '_>,
    out: &mut [u8],
) -> io::Result<()> {
    match pool.write_data(rooms, &mut *out) {
        Ok(n) => summed(w, front(out, n)),
        Err(why) => shown::refused(w, why),
    }
}
