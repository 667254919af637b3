// Commands that read the rows of a table: all of them, the row reader's cells, and a cell by its place.
#![tactic(auto)]

ghost use Rattle.std.specs.Prelude.{◌≡◌, length, IfOk};

use cell::ValueRef;
use commands::kept::FILL;
use commands::lists::Handed;
use commands::shown::Show;
use commands::words::{Words, front, product};
use commands::{kept, places, shown};
use common::Refusal;
use room_commands::Desk;
use rows::Rows;
use std::io;
use std::io::Write;
use stringpool::{Rooms, StringPool};
use table::Table;
use table_commands::FILL_NUMBER;
use table_commands::layouts::{laid, refused};

fn comma<W: Write>(w: &mut W, at: usize) -> io::Result<()> {
    if at > 0 {
        shown::say(w, b",")?;
    }
    Ok(())
}

// Cells as they are handed over.
#[derive(Clone, Copy)]
struct Plain;

impl Show<Handed> for Plain {
    fn show<W: Write>(&self, w: &mut W, at: usize, cell: Handed) -> io::Result<()> {
        comma(w, at)?;
        shown::cell(w, cell)
    }
}

// Cells, a reference by its text in a pool.
#[derive(Clone, Copy)]
struct Texts<'a> {
    pool: StringPool,
    rooms: Rooms<'a, 'a>,
}

impl Show<Handed> for Texts<'_> {
    fn show<W: Write>(&self, w: &mut W, at: usize, cell: Handed) -> io::Result<()> {
        comma(w, at)?;
        if cell.kind == 2 {
            return shown::text(w, self.pool.get(self.rooms, cell.number));
        }
        shown::cell(w, cell)
    }
}

// The cells of a table. No list of them is made: it would be filled for each line, however few they are.
fn cells_out<W: Write, S: Show<Handed>>(
    w: &mut W,
    rows: usize,
    kinds: &[u8],
    numbers: &[i32],
    items: &S,
) -> io::Result<()>
    ensures { IfOk result (λ u. u ≡ tt) }
{
    write!(w, "ok {rows} ")?;
    if kinds.is_empty() {
        return shown::say(w, b"-");
    }
    let long = shown::is_long(kinds.len(), shown::same(kinds) && shown::same(numbers));
    let once = if long { 1 } else { kinds.len() };
    for (at, (kind, number)) in kinds.iter().zip(numbers).take(once).enumerate() {
        let cell = Handed {
            kind: *kind,
            number: *number,
        };
        items.show(w, at, cell)?;
    }
    if long {
        return shown::times(w, kinds.len());
    }
    Ok(())
}

fn read_table<W: Write>(
    w: &mut W,
    words: Words<'_>,
    table: Table,
    stream: &[u8],
    desk: Desk,
    out: &mut [u8],
) -> io::Result<Desk>
    ensures { length out.new ≡ length out.old }
{
    let mut kinds = [FILL; 65_600];
    let mut numbers = [FILL_NUMBER; 65_600];
    let rows = table.num_rows(stream).unwrap_or(0);
    let n = places::of(&kinds, desk.output(product(rows, table.count as u64)));
    let kinds = &mut kinds[..n];
    let numbers = &mut numbers[..n];
    match table.read_rows(stream, kinds, numbers) {
        Ok(cells) => {
            let kinds = front(kinds, cells);
            cells_out(w, rows, kinds, front(numbers, cells), &Plain)?
        }
        Err(why) => refused(w, words, why)?,
    }
    Ok(desk.leaves(kept::cells(kinds, numbers, out), 5))
}

// `read LONG LAYOUT BYTES`
pub fn read<W: Write>(w: &mut W, words: Words<'_>, desk: Desk, out: &mut [u8]) -> io::Result<Desk>
    ensures { length out.new ≡ length out.old }
{
    let mut stream = [0u8; 270_000];
    let n = words.next().next().bytes_in(&mut stream);
    match laid(words) {
        Ok(table) => read_table(w, words, table, front(&stream, n), desk, out),
        Err(why) => {
            shown::refused(w, why)?;
            Ok(desk)
        }
    }
}

// The cell of `LONG LAYOUT BYTES R C`, in the room for a stream that the caller has.
fn cell_at(words: Words<'_>, stream: &mut [u8]) -> Result<ValueRef, Refusal> {
    let bytes = words.next().next();
    let row = bytes.next();
    let table = laid(words)?;
    let n = bytes.bytes_in(stream);
    table.read_cell(
        front(stream, n),
        row.number() as usize,
        row.next().number() as usize,
    )
}

// `place LONG LAYOUT BYTES R C`
pub fn place<W: Write>(w: &mut W, words: Words<'_>) -> io::Result<()>
    ensures { IfOk result (λ u. u ≡ tt) }
{
    let mut stream = [0u8; 270_000];
    match cell_at(words, &mut stream) {
        Ok(value) => {
            shown::say(w, b"ok ")?;
            shown::cell(w, value.into())
        }
        Err(why) => refused(w, words, why),
    }
}

// The row reader's cells, as many as there is room for: how many there are.
fn walk(table: Table, stream: &[u8], kinds: &mut [u8], numbers: &mut [i32]) -> usize {
    let mut reader = Rows::new(stream);
    let room = kinds.len();
    for (n, (kind, number)) in kinds.iter_mut().zip(numbers).enumerate() {
        let Ok(Some(next)) = reader.next(table).cell else {
            return n;
        };
        *kind = next.kind();
        *number = next.number();
    }
    room
}

// The cells of a stream whose rows were counted. A pool that is not sound shows none.
fn walked<W: Write>(
    w: &mut W,
    words: Words<'_>,
    table: Table,
    stream: &[u8],
    rows: usize,
    texts: Texts<'_>,
) -> io::Result<()>
    ensures { IfOk result (λ u. u ≡ tt) }
{
    let mut kinds = [FILL; 65_600];
    let mut numbers = [FILL_NUMBER; 65_600];
    let cells = walk(table, stream, &mut kinds, &mut numbers);
    if cells > 0 {
        if let Err(why) = pool_values::to_value(ValueRef::Null, texts.pool, texts.rooms) {
            return refused(w, words, why);
        }
    }
    cells_out(
        w,
        rows,
        front(&kinds, cells),
        front(&numbers, cells),
        &texts,
    )
}

// The rows of `LONG LAYOUT BYTES`.
fn rows_of<W: Write>(w: &mut W, words: Words<'_>, table: Table, texts: Texts<'_>) -> io::Result<()>
    ensures { IfOk result (λ u. u ≡ tt) }
{
    let mut stream = [0u8; 270_000];
    let n = words.next().next().bytes_in(&mut stream);
    let stream = front(&stream, n);
    match table.num_rows(stream) {
        Ok(rows) => walked(w, words, table, stream, rows, texts),
        Err(why) => refused(w, words, why),
    }
}

// `rows LONG LAYOUT BYTES`: a reference is shown by its text.
pub fn rows<W: Write>(
    w: &mut W,
    words: Words<'_>,
    pool: StringPool,
    rooms: Rooms<'_, '_>,
) -> io::Result<()>
    ensures { IfOk result (λ u. u ≡ tt) }
{
    match laid(words) {
        Ok(table) => rows_of(w, words, table, Texts { pool, rooms }),
        Err(why) => refused(w, words, why),
    }
}
