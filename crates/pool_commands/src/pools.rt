// Commands on the pool.
ghost use Rattle.stringpool.specs.Pool.{SameRooms};

use commands::shown;
use commands::words::{Words, front};
use common::Refusal;
use room_commands::Desk;
use std::io;
use std::io::Write;
use stringpool::{Rooms, RoomsMut, StringPool, Taken};

pub(crate) fn state<W: Write>(w: &mut W, pool: StringPool) -> io::Result<()> {
    let StringPool {
        num_strings,
        long_string_refs,
        codepage,
    } = pool;
    write!(w, "ok {codepage} ")?;
    shown::flag(w, long_string_refs)?;
    write!(w, " {num_strings}")
}

pub(crate) fn load<W: Write>(
    w: &mut W,
    words: Words<'_>,
    desk: Desk,
    rooms: &mut RoomsMut<'_>,
) -> io::Result<Desk>
    ensures same { SameRooms rooms.old rooms.new }
{
    let mut stream = stream_room();
    let mut data = text_room();
    let n = words.bytes_in(&mut stream);
    let m = words.next().bytes_in(&mut data);
    match StringPool::load(front(&stream, n), front(&data, m), rooms) {
        Ok(made) => {
            state(w, made)?;
            Ok(desk.with_pool(made))
        }
        Err(why) => {
            shown::refused(w, why)?;
            Ok(desk)
        }
    }
}

// A reference that was taken, and the pool after it.
fn taken<W: Write>(w: &mut W, answer: Result<Taken, Refusal>, desk: Desk) -> io::Result<Desk> {
    match answer {
        Ok(Taken { reference, pool }) => {
            write!(w, "ok {}", reference.0)?;
            Ok(desk.with_pool(pool))
        }
        Err(why) => {
            shown::refused(w, why)?;
            Ok(desk)
        }
    }
}

// `take` is by the first entry that is free or equal, as the crate chooses. It and `take-default` are two functions: of a call that is
// handed in, nothing would say that the rooms stay the same memory.
pub(crate) fn take<W: Write>(
    w: &mut W,
    words: Words<'_>,
    desk: Desk,
    rooms: &mut RoomsMut<'_>,
) -> io::Result<Desk>
    ensures same { SameRooms rooms.old rooms.new }
{
    let mut new = text_room();
    let n = words.bytes_in(&mut new);
    taken(w, desk.pool.incref_first(rooms, front(&new, n)), desk)
}

pub(crate) fn take_default<W: Write>(
    w: &mut W,
    words: Words<'_>,
    desk: Desk,
    rooms: &mut RoomsMut<'_>,
) -> io::Result<Desk>
    ensures same { SameRooms rooms.old rooms.new }
{
    let mut new = text_room();
    let n = words.bytes_in(&mut new);
    taken(w, desk.pool.incref(rooms, front(&new, n)), desk)
}

pub(crate) fn count<W: Write>(
    w: &mut W,
    words: Words<'_>,
    desk: Desk,
    rooms: Rooms<'_, '_>,
) -> io::Result<Desk> {
    match desk.pool.refcount(rooms, words.signed()) {
        Ok(n) => write!(w, "ok {n}")?,
        Err(why) => shown::refused(w, why)?,
    }
    Ok(desk)
}

// An array that a call gives back is known by its size, and not place by place.
fn stream_room() -> [u8; 262160] {
    [0u8; 262160]
}

fn text_room() -> [u8; 70016] {
    [0u8; 70016]
}
