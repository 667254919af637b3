// Cases e to j and m.
use crate::said;
use cases::Bytes;
use column::{Column, ColumnType};
use common::Refusal;
use std::io;
use std::io::Write;

fn written<W: Write>(w: &mut W, label: &str, asked: Bytes) -> io::Result<()> {
    write!(w, "{label}")?;
    said::front(w, asked.answer, &asked.out, 2)
}

fn column_type<W: Write>(w: &mut W, coltype: ColumnType) -> io::Result<()> {
    match coltype {
        ColumnType::Int16 => write!(w, "Int16"),
        ColumnType::Int32 => write!(w, "Int32"),
        ColumnType::Str(max) => write!(w, "Str {max}"),
        ColumnType::Binary => write!(w, "Binary"),
    }
}

fn from_bits<W: Write>(w: &mut W, label: &str, made: Result<Column, Refusal>) -> io::Result<()> {
    write!(w, "{label}")?;
    match made {
        Ok(column) => column_type(w, column.coltype)?,
        Err(why) => said::reason(w, why)?,
    }
    writeln!(w)
}

pub(crate) fn cases<W: Write>(w: &mut W) -> io::Result<()> {
    written(w, "e Int16 1:", cases::case_e())?;
    written(w, "f Int16 -1:", cases::case_f())?;
    written(w, "g Int16 0:", cases::case_g())?;
    from_bits(w, "h bits 0x2900: ", cases::case_h())?;
    from_bits(w, "i bits 0x404: ", cases::case_i())?;
    from_bits(w, "j bits 0x503: ", cases::case_j())
}

pub(crate) fn case_m<W: Write>(w: &mut W) -> io::Result<()> {
    written(
        w,
        "m Int16 and Str 8, short, rows (1, ref 3), (-1, Null):",
        cases::case_m(),
    )
}
