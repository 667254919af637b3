// The first places of a room hold what a command says.
ghost use Rattle.std.specs.Prelude.{◌≡◌, IfOk};
ghost use Rattle.stringpool.specs.Pool.{SameRooms};

use commands::lists::Items;
use commands::shown;
use commands::words::Words;
use std::io;
use std::io::Write;
use stringpool::RoomsMut;

// Whether a list has at most `places` numbers, each one that a place holds.
fn fits<T: TryFrom<u64> + Drop>(words: Words<'_>, places: usize) -> bool
where
    T::Error: Drop,
{
    let mut items = Items::of(words);
    for _ in 0..places {
        let Some(item) = items.next() else {
            return true;
        };
        if T::try_from(item.number()).is_err() {
            return false;
        }
    }
    items.next().is_none()
}

fn put<T: TryFrom<u64> + Copy>(words: Words<'_>, room: &mut [T])
where
    T::Error: Drop,
{
    for (place, item) in room.iter_mut().zip(Items::of(words)) {
        if let Ok(number) = T::try_from(item.number()) {
            *place = number;
        }
    }
}

fn numbers<W: Write, T: TryFrom<u64> + Copy>(
    w: &mut W,
    words: Words<'_>,
    room: &mut [T],
) -> io::Result<()>
where
    T::Error: Drop,
{
    if !fits::<T>(words, room.len()) {
        return shown::say(w, b"bad");
    }
    put(words, room);
    shown::say(w, b"ok")
}

fn text<W: Write>(w: &mut W, words: Words<'_>, room: &mut [u8]) -> io::Result<()> {
    if words.bytes_len() > room.len() {
        return shown::say(w, b"bad");
    }
    words.bytes_in(room);
    shown::say(w, b"ok")
}

// `hold lengths NUMBERS`, `hold counts NUMBERS`, `hold text BYTES`
pub fn hold<W: Write>(w: &mut W, words: Words<'_>, rooms: &mut RoomsMut<'_>) -> io::Result<()>
    ensures same { SameRooms rooms.old rooms.new }
    ensures answers { IfOk result (λ u. u ≡ tt) }
{
    match words.word() {
        b"lengths" => numbers(w, words.next(), &mut *rooms.lengths),
        b"counts" => numbers(w, words.next(), &mut *rooms.counts),
        b"text" => text(w, words.next(), &mut *rooms.text),
        _ => shown::say(w, b"bad"),
    }
}
