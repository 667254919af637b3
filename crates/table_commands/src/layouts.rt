// Layouts: LONG LAYOUT, the columns by their bits, or each as `:TYPE`.
ghost use Rattle.std.specs.Prelude.{◌≡◌, IfOk};

use crate::columns::{column_at, refusal};
use column::Column;
use commands::lists::{Items, nth, signed_in};
use commands::shown;
use commands::words::{Words, front};
use common::{Place, Refusal};
use std::io;
use std::io::Write;
use table::Table;

// A layout of types is handed over as it is, and the call on it judges it; past 64 columns it has 65.
fn by_types(words: Words<'_>, long_string_refs: bool) -> Table {
    let no_column = Column::build().int16();
    let mut columns = [no_column; 64];
    let mut count = 0;
    for (i, item) in Items::of(words).take(65).enumerate() {
        if i < 64 {
            // The column of a type behind a colon.
            columns[i] = column_at(item.after(), Column::build()).unwrap_or(no_column);
        }
        count = i + 1;
    }
    Table {
        columns,
        count,
        long_string_refs,
    }
}

// LONG LAYOUT: columns by their bits, or each as `:TYPE`.
pub fn laid(words: Words<'_>) -> Result<Table, Refusal> {
    let long = words.byte() == b'1';
    let columns = words.next();
    if columns.byte() == b':' {
        return Ok(by_types(columns, long));
    }
    let mut bits = [0i32; 128];
    let n = signed_in(columns, &mut bits);
    Table::from_bitfields(front(&bits, n), long)
}

// A refusal of a call on the table of LONG LAYOUT.
pub fn refused<W: Write>(w: &mut W, words: Words<'_>, why: Refusal) -> io::Result<()>
    ensures { IfOk result (λ u. u ≡ tt) }
{
    match why.place() {
        Place::Column(column) => {
            let number = refusal(why, nth(words.next(), column).after());
            write!(w, "error {number} {column}")
        }
        _ => shown::refused(w, why),
    }
}
