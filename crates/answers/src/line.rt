// The command on a line, by its first word.
use commands::words::Words;
use commands::{places, shown};
use room_commands::Desk;
use std::io;
use std::io::Write;
use stringpool::RoomsMut;

// The word of a command. Of a long one the last seven bytes count, and zeros before a command do not.
fn command<'a>(line: Words<'a>) -> &'a [u8] {
    let word = line.word();
    if matches!(word, b"take-default" | b"create-default") {
        return word;
    }
    let last = &word[word.len().saturating_sub(7)..];
    let zeros = last.iter().take_while(|b| **b == 0).count();
    &last[zeros..]
}

// The commands that no pool is lent to.
fn plain<W: Write>(w: &mut W, line: Words<'_>, desk: Desk, out: &mut [u8]) -> io::Result<Desk> {
    let words = line.next();
    match command(line) {
        b"enc" => return name_commands::encode(w, words, desk, out),
        b"dec" => return name_commands::decode(w, words, desk, out),
        b"out" => return room_commands::out(w, words, desk),
        b"pool" => return room_commands::pool(w, words, desk),
        b"read" => return row_commands::read(w, words, desk, out),
        b"write" => return table_commands::write(w, words, desk, out),
        b"valid" => name_commands::is_valid(w, words)?,
        b"ref" => name_commands::reference(w, words)?,
        b"place" => row_commands::place(w, words)?,
        b"col" => table_commands::columns::made(w, words)?,
        b"check" => table_commands::columns::checked(w, words)?,
        _ => shown::say(w, b"bad")?,
    }
    Ok(desk)
}

// The commands on the pool, whose rooms are those that are lent.
fn pooled<W: Write>(
    w: &mut W,
    line: Words<'_>,
    desk: Desk,
    rooms: &mut RoomsMut<'_>,
    out: &mut [u8],
) -> io::Result<Desk> {
    let words = line.next();
    match command(line) {
        word @ (b"load" | b"take" | b"take-default" | b"drop") => {
            pool_commands::change(w, word, words, desk, rooms)
        }
        word @ (b"new" | b"page" | b"count" | b"state" | b"sum" | b"wpool" | b"wdata") => {
            pool_commands::read(w, word, words, desk, rooms.view(), out)
        }
        b"create" => value_commands::create(w, words, desk, rooms),
        b"create-default" => value_commands::create_default(w, words, desk, rooms),
        b"remove" => value_commands::remove(w, words, desk, rooms),
        b"value" => value_commands::value(w, words, desk, rooms.view(), out),
        b"show" => value_commands::show(w, words, desk, rooms.view(), out),
        b"rows" => {
            row_commands::rows(w, words, desk.pool, rooms.view())?;
            Ok(desk)
        }
        b"hold" => {
            room_commands::hold::hold(w, words, rooms)?;
            Ok(desk)
        }
        b"held" => {
            room_commands::held::held(w, line, desk, rooms.view(), out)?;
            Ok(desk)
        }
        _ => plain(w, line, desk, out),
    }
}

// As many places of each room as are lent.
fn lent<'a>(desk: Desk, rooms: &'a mut RoomsMut<'_>) -> RoomsMut<'a> {
    let RoomsMut {
        lengths,
        counts,
        text,
    } = rooms;
    let l = places::of(lengths, desk.lengths);
    let c = places::of(counts, desk.counts);
    let t = places::of(text, desk.text);
    RoomsMut {
        lengths: &mut lengths[..l],
        counts: &mut counts[..c],
        text: &mut text[..t],
    }
}

pub(crate) fn answer<W: Write>(
    w: &mut W,
    line: Words<'_>,
    desk: Desk,
    rooms: &mut RoomsMut<'_>,
    out: &mut [u8],
) -> io::Result<Desk> {
    match command(line) {
        b"lend" => room_commands::lend::lend(w, line.next(), desk, rooms),
        _ => pooled(w, line, desk, &mut lent(desk, rooms), out),
    }
}
