// What the rooms and the last output hold.
ghost use Rattle.std.specs.Prelude.{◌≡◌, IfOk};

use crate::{ALL, Desk};
use commands::shown;
use commands::shown::Show;
use commands::words::{End, Words, front, product};
use std::fmt::Display;
use std::io;
use std::io::Write;
use stringpool::Rooms;

// The last `most` places.
fn last<T>(list: &[T], most: usize) -> &[T] {
    &list[list.len().saturating_sub(most)..]
}

// Numbers joined by commas.
struct Numbers;

impl<T: Display + Drop> Show<T> for Numbers {
    fn show<W: Write>(&self, w: &mut W, at: usize, item: T) -> io::Result<()> {
        if at > 0 {
            return write!(w, ",{item}");
        }
        write!(w, "{item}")
    }
}

// Whether the bytes of both lists are all the same.
fn one_byte(kinds: &[u8], numbers: &[u8]) -> bool {
    kinds.first() == numbers.first() && shown::same(kinds) && shown::same(numbers)
}

// The kinds of cells, then their numbers, in one word.
fn cells<W: Write>(w: &mut W, kinds: &[u8], numbers: &[u8]) -> io::Result<()> {
    if kinds.is_empty() {
        return shown::say(w, b"-");
    }
    let bytes = product(kinds.len(), 5);
    if shown::is_long(bytes, one_byte(kinds, numbers)) {
        shown::plain(w, front(kinds, 1))?;
        return shown::times(w, bytes);
    }
    shown::plain(w, kinds)?;
    shown::plain(w, numbers)
}

fn output<W: Write>(w: &mut W, desk: Desk, out: &[u8], most: usize) -> io::Result<()> {
    let left = front(out, desk.left);
    if desk.width == 5 {
        let kinds = front(left, left.len() / 5);
        let numbers = last(left, product(kinds.len(), 4));
        return cells(w, last(kinds, most), last(numbers, product(most, 4)));
    }
    shown::bytes(w, last(left, product(most, desk.width as u64)))
}

fn most_at(words: Words<'_>) -> usize {
    if words.end(End::Word).at == words.end(End::Line).at {
        return ALL;
    }
    words.next().count() as usize
}

// `held`, `held N`
pub fn held<W: Write>(
    w: &mut W,
    words: Words<'_>,
    desk: Desk,
    rooms: Rooms<'_, '_>,
    out: &[u8],
) -> io::Result<()>
    ensures { IfOk result (λ u. u ≡ tt) }
{
    let most = most_at(words);
    shown::say(w, b"ok ")?;
    shown::list(w, last(rooms.lengths, most), &Numbers)?;
    shown::say(w, b" ")?;
    shown::list(w, last(rooms.counts, most), &Numbers)?;
    shown::say(w, b" ")?;
    shown::bytes(w, last(rooms.text, most))?;
    shown::say(w, b" ")?;
    output(w, desk, out, most)
}
