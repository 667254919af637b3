// Commands on the pool.
#![tactic(auto)]

mod adler;
mod pools;
mod written;

ghost use Rattle.stringpool.specs.Pool.{SameRooms};

use commands::shown;
use commands::words::Words;
use common::Refusal;
use room_commands::Desk;
use std::io;
use std::io::Write;
use stringpool::{Rooms, RoomsMut, StringPool};

// The commands that may change the rooms.
pub fn change<W: Write>(
    w: &mut W,
    word: &[u8],
    words: Words<'_>,
    desk: Desk,
    rooms: &mut RoomsMut<'_>,
) -> io::Result<Desk>
    ensures same { SameRooms rooms.old rooms.new }
{
    match word {
        b"load" => pools::load(w, words, desk, rooms),
        b"take" => pools::take(w, words, desk, rooms),
        b"take-default" => pools::take_default(w, words, desk, rooms),
        _ => pooled(w, desk.pool.decref(rooms, words.signed()), desk),
    }
}

// The commands that only read the rooms, with the output that they leave.
pub fn read<W: Write>(
    w: &mut W,
    word: &[u8],
    words: Words<'_>,
    desk: Desk,
    rooms: Rooms<'_, '_>,
    out: &mut [u8],
) -> io::Result<Desk> {
    let pool = desk.pool;
    match word {
        b"new" => pooled(w, StringPool::new(words.count()), desk),
        b"page" => pooled(w, pool.set_codepage(rooms, words.count()), desk),
        b"count" => pools::count(w, words, desk, rooms),
        b"state" => {
            pools::state(w, pool)?;
            Ok(desk)
        }
        b"sum" => written::sum(w, desk, rooms, out),
        b"wpool" => written::write(
            w,
            desk,
            written::enough(pool.num_strings),
            out,
            |part: &mut [u8]| { pool.write_pool(rooms, part) },
        ),
        _ => written::write(w, desk, rooms.text.len(), out, |part: &mut [u8]| {
            pool.write_data(rooms, part)
        }),
    }
}

// The pool after a call that answers nothing else.
pub fn pooled<W: Write>(
    w: &mut W,
    answer: Result<StringPool, Refusal>,
    desk: Desk,
) -> io::Result<Desk> {
    match answer {
        Ok(made) => {
            shown::say(w, b"ok")?;
            Ok(desk.with_pool(made))
        }
        Err(why) => {
            shown::refused(w, why)?;
            Ok(desk)
        }
    }
}
