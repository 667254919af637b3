// Rooms of other sizes: they keep what they held as far as it fits, and new places hold 0xEE in every byte.
ghost use Rattle.std.specs.Prelude.{◌≡◌, IfOk, OnOk, codes};
ghost use Rattle.std.specs.Io.KnownBytes.{Appends};
ghost use Rattle.stringpool.specs.Pool.{SameRooms};

use crate::{ALL, Desk};
use commands::shown;
use commands::words::Words;
use std::io;
use std::io::Write;
use stringpool::RoomsMut;

const FILL_LENGTH: u32 = 0xEEEE_EEEE;

const FILL_COUNT: u16 = 0xEEEE;

const FILL_BYTE: u8 = 0xEE;

// What a room holds past its size is no more.
fn cut<T: Copy>(room: &mut [T], from: usize, fill: T)
    requires { T.is_infallible fill }
{
    let kept = from.min(room.len());
    room[kept..].fill(fill);
}

fn sized(words: Words<'_>, mut desk: Desk) -> Desk
    ensures { (result.pool ≡ desk.pool) × (result.places ≡ desk.places) × (result.left ≡ desk.left) × (result.width ≡ desk.width) }
{
    if words.is_none() {
        desk.lengths = ALL;
        desk.counts = ALL;
        desk.text = ALL;
        return desk;
    }
    let counts = words.next();
    desk.lengths = words.count() as usize;
    desk.counts = counts.count() as usize;
    desk.text = counts.next().count() as usize;
    desk
}

// `lend LENGTHS COUNTS BYTES`, `lend -`
pub fn lend<W: Write>(
    w: &mut W,
    words: Words<'_>,
    desk: Desk,
    rooms: &mut RoomsMut<'_>,
) -> io::Result<Desk>
    ensures same { SameRooms rooms.old rooms.new }
    ensures answers { IfOk result (λ d. (d.pool ≡ desk.pool) × (d.places ≡ desk.places) × (d.left ≡ desk.left) × (d.width ≡ desk.width)) }
    ensures written { OnOk result (Appends (W.contents w.old) (W.contents w.new) (codes "ok")) }
{
    let lent = sized(words, desk);
    cut(&mut *rooms.lengths, lent.lengths, FILL_LENGTH);
    cut(&mut *rooms.counts, lent.counts, FILL_COUNT);
    cut(&mut *rooms.text, lent.text, FILL_BYTE);
    shown::say(w, b"ok")?;
    Ok(lent)
}
