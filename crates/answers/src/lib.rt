// The command language of desk/PROTOCOL.md, answered line by line by the calls of the port, to a writer.
#![tactic(auto)]

mod line;

ghost use Rattle.std.specs.Prelude.{◌≡◌, ◌≤◌, length, IfOk};

use commands::shown;
use commands::words::{End, Words};
use room_commands::Desk;
use std::io;
use std::io::{Read, Write};
use stringpool::RoomsMut;

fn answer<W: Write>(
    w: &mut W,
    line: Words<'_>,
    desk: Desk,
    rooms: &mut RoomsMut<'_>,
    out: &mut [u8],
) -> io::Result<Desk> {
    // A comment and an empty line have no answer.
    if matches!(line.byte(), b'#' | b'\n') {
        return Ok(desk);
    }
    let after = line::answer(w, line, desk, rooms, out)?;
    shown::say(w, b"\n")?;
    Ok(after)
}

// Each line of a text.
fn each<W: Write>(
    w: &mut W,
    text: &[u8],
    rooms: &mut RoomsMut<'_>,
    out: &mut [u8],
) -> io::Result<()> {
    let mut desk = Desk::new();
    let mut line = Words { text, at: 0 };
    // A step is as long as its line.
    while line.at < text.len() {
        desk = answer(w, line, desk, rooms, out)?;
        line = line.end(End::Line).after();
    }
    Ok(())
}

// Reads until a list is full or its reader has no more: how many bytes that was.
pub fn read_in<R: Read>(r: &mut R, list: &mut [u8]) -> io::Result<usize>
    ensures { IfOk result (λ n. n ≤ length list.new) }
{
    let mut done = 0;
    // A step is as long as what the reader had.
    while done < list.len() {
        let n = r.read(&mut list[done..])?;
        if n == 0 {
            break;
        }
        done += n;
    }
    Ok(done)
}

// An array that a call gives back is known by its size: known place by place, 600,000 places are too many for a check.
fn room<T: Copy, const N: usize>(filled: T) -> [T; N]
    ensures { length result ≡ N }
{
    [filled; N]
}

// Answers each line of a text, with one pool.
pub fn lines<W: Write>(w: &mut W, text: &[u8]) -> io::Result<()> {
    let mut lengths = room::<u32, 65_600>(0xEEEE_EEEE);
    let mut counts = room::<u16, 65_600>(0xEEEE);
    let mut texts = room::<u8, 131_072>(0xEE);
    let mut out = room::<u8, 600_000>(0xEE);
    let mut rooms = RoomsMut {
        lengths: &mut lengths,
        counts: &mut counts,
        text: &mut texts,
    };
    each(w, text, &mut rooms, &mut out)
}

// Answers the lines that a reader has, as far as the room for them goes.
pub fn all<R: Read, W: Write>(r: &mut R, w: &mut W, room: &mut [u8]) -> io::Result<()> {
    let used = read_in(r, room)?;
    lines(w, &room[..used])
}
