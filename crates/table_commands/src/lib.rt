// Commands on columns and tables: a column by itself, the layout of a table, and rows written.
#![tactic(auto)]

pub mod columns;
pub mod layouts;

ghost use Rattle.std.specs.Prelude.{◌≡◌, length};

use crate::layouts::{laid, refused};
use commands::kept::FILL;
use commands::lists::cells_in;
use commands::words::{Words, front, product};
use commands::{kept, places, shown};
use room_commands::Desk;
use std::io;
use std::io::Write;
use table::Table;

// Cells by their kinds and their numbers, as the calls on a table take them.
#[derive(Clone, Copy)]
pub struct Cells<'a> {
    pub kinds: &'a [u8],
    pub numbers: &'a [i32],
}

// What a number of an output holds before a call: `kept::FILL` in each of its bytes.
pub const FILL_NUMBER: i32 = -286_331_154;

fn write_table<W: Write>(
    w: &mut W,
    words: Words<'_>,
    table: Table,
    cells: Cells<'_>,
    desk: Desk,
    out: &mut [u8],
) -> io::Result<Desk> {
    let n = places::of(out, desk.output(product(cells.kinds.len(), 4)));
    kept::fill(&mut out[..n]);
    let rows = words.next().next().number() as usize;
    let m = places::of(out, n);
    match table.write_rows(rows, cells.kinds, cells.numbers, &mut out[..m]) {
        Ok(bytes) => {
            shown::say(w, b"ok ")?;
            shown::bytes(w, front(out, bytes))?;
        }
        Err(why) => refused(w, words, why)?,
    }
    Ok(desk.leaves(n, 1))
}

fn write_cells<W: Write>(
    w: &mut W,
    words: Words<'_>,
    table: Table,
    desk: Desk,
    out: &mut [u8],
) -> io::Result<Desk> {
    let mut kinds = [FILL; 65_600];
    let mut numbers = [FILL_NUMBER; 65_600];
    let given = cells_in(words.next().next().next(), &mut kinds, &mut numbers);
    let cells = Cells {
        kinds: front(&kinds, given),
        numbers: front(&numbers, given),
    };
    write_table(w, words, table, cells, desk, out)
}

// `write LONG LAYOUT ROWS CELLS`
pub fn write<W: Write>(w: &mut W, words: Words<'_>, desk: Desk, out: &mut [u8]) -> io::Result<Desk>
    ensures { length out.new ≡ length out.old }
{
    match laid(words) {
        Ok(table) => write_cells(w, words, table, desk, out),
        Err(why) => {
            shown::refused(w, why)?;
            Ok(desk)
        }
    }
}
