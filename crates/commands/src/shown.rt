// Answers as the command language writes them, to a writer. What writes answers nothing but the writer's error, and leaves what it was
// lent.
ghost use Rattle.std.specs.Prelude.{◌≡◌, ◌≤◌, ◌<◌, [], ◌∷◌, ◌++◌, IfOk, OnOk, decimal};
ghost use Rattle.std.specs.Io.KnownBytes.{Appends};
ghost use Rattle.std.specs.Fmt.{signed_decimal};
ghost use Rattle.commands.specs.Shown.{cell_shown, is_panic, spaced, refused_shown};
ghost use Rattle.common.specs.Refusals.{number_of, where_of};
ghost use Rattle.common.specs.Choice.{when◌then◌else◌};
ghost use Rattle.commands.specs.Words.{is_long_lem};

use crate::lists::Handed;
use common::{Place, Refusal};
use std::io;
use std::io::Write;

pub fn say<W: Write>(w: &mut W, words: &[u8]) -> io::Result<()>
    ensures answers { IfOk result (λ u. u ≡ tt) }
    ensures written { OnOk result (Appends (W.contents w.old) (W.contents w.new) words.now) }
{
    w.write_all(words)
}

pub fn number<W: Write>(w: &mut W, n: usize) -> io::Result<()>
    ensures answers { IfOk result (λ u. u ≡ tt) }
    ensures written { OnOk result (Appends (W.contents w.old) (W.contents w.new) (decimal n)) }
{
    write!(w, "{n}")
}

pub fn flag<W: Write>(w: &mut W, on: bool) -> io::Result<()>
    ensures answers { IfOk result (λ u. u ≡ tt) }
    ensures written { OnOk result (Appends (W.contents w.old) (W.contents w.new) ((when on then 49 else 48) ∷ [])) }
{
    say(w, if on { b"1" } else { b"0" })
}

// Whether each item is what the one before it is.
pub fn same<T: PartialEq>(list: &[T]) -> bool {
    list.windows(2).all(|pair| pair[0] == pair[1])
}

// More than 64 items that are all the same are written once.
pub fn is_long(items: usize, same: bool) -> bool
    ensures { result ≡ is_long_lem items same }
{
    same && items > 64
}

// The mark of a repetition.
pub fn times<W: Write>(w: &mut W, n: usize) -> io::Result<()>
    ensures answers { IfOk result (λ u. u ≡ tt) }
    ensures written { OnOk result (Appends (W.contents w.old) (W.contents w.new) (42 ∷ decimal n)) }
{
    write!(w, "*{n}")
}

// What writes the item of a list that stands at a place. A trait, since a closure would have to be callable, and a public function here
// asks nothing.
pub trait Show<T> {
    fn show<W: Write>(&self, w: &mut W, at: usize, item: T) -> io::Result<()>;
}

// A list, by what writes its items; `-` for none.
pub fn list<W: Write, T: Copy + PartialEq, S: Show<T>>(
    w: &mut W,
    list: &[T],
    items: &S,
) -> io::Result<()>
    ensures { IfOk result (λ u. u ≡ tt) }
{
    if list.is_empty() {
        return say(w, b"-");
    }
    if is_long(list.len(), same(list)) {
        items.show(w, 0, list[0])?;
        return times(w, list.len());
    }
    for (at, item) in list.iter().enumerate() {
        items.show(w, at, *item)?;
    }
    Ok(())
}

// Two hexadecimal digits for a byte, four for a unit, the high byte first.
pub struct Hex;

impl Show<u8> for Hex {
    fn show<W: Write>(&self, w: &mut W, _at: usize, item: u8) -> io::Result<()> {
        write!(w, "{item:02x}")
    }
}

impl Show<u16> for Hex {
    fn show<W: Write>(&self, w: &mut W, _at: usize, item: u16) -> io::Result<()> {
        write!(w, "{item:04x}")
    }
}

pub fn bytes<W: Write>(w: &mut W, bytes: &[u8]) -> io::Result<()>
    ensures { IfOk result (λ u. u ≡ tt) }
{
    list(w, bytes, &Hex)
}

pub fn units<W: Write>(w: &mut W, units: &[u16]) -> io::Result<()>
    ensures { IfOk result (λ u. u ≡ tt) }
{
    list(w, units, &Hex)
}

// Bytes as a part of a word.
pub fn plain<W: Write>(w: &mut W, bytes: &[u8]) -> io::Result<()>
    ensures { IfOk result (λ u. u ≡ tt) }
{
    for b in bytes {
        write!(w, "{b:02x}")?;
    }
    Ok(())
}

// A text of a value.
pub fn text<W: Write>(w: &mut W, bytes: &[u8]) -> io::Result<()>
    ensures { IfOk result (λ u. u ≡ tt) }
{
    say(w, b"t")?;
    if bytes.is_empty() {
        say(w, b"-")?;
    }
    plain(w, bytes)
}

// A cell as it is handed over: its kind and its number.
pub fn cell<W: Write>(w: &mut W, cell: Handed) -> io::Result<()>
    ensures answers { IfOk result (λ u. u ≡ tt) }
    ensures written { OnOk result (Appends (W.contents w.old) (W.contents w.new) (cell_shown cell.kind cell.number)) }
{
    let Handed { kind, number } = cell;
    match kind {
        0 => write!(w, "n"),
        1 => write!(w, "i{number}"),
        2 => write!(w, "s{number}"),
        3 => write!(w, "b"),
        _ => write!(w, "k{kind}:{number}"),
    }
}

// The crate panics where it gives 9 to 12 and 15.
fn panics(n: u32) -> bool
    ensures { result ≡ is_panic n }
{
    matches!(n, 9..=12 | 15)
}

fn spaced<W: Write>(w: &mut W, n: usize) -> io::Result<()>
    ensures { OnOk result (Appends (W.contents w.old) (W.contents w.new) (spaced n)) }
{
    write!(w, " {n}")
}

pub fn refused<W: Write>(w: &mut W, why: Refusal) -> io::Result<()>
    ensures answers { IfOk result (λ u. u ≡ tt) }
    ensures written { OnOk result (Appends (W.contents w.old) (W.contents w.new) (refused_shown (number_of why) (where_of why))) }
{
    let n = why.number();
    say(w, if panics(n) { b"panic" } else { b"error" })?;
    spaced(w, n as usize)?;
    match why.place() {
        Place::Nowhere => Ok(()),
        Place::Column(column) => spaced(w, column),
        Place::Cell { row, column } => {
            spaced(w, column)?;
            spaced(w, row)
        }
    }
}
