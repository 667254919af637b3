// What came of a case, as document 01 writes it.
use common::{Place, Refusal};
use std::io;
use std::io::Write;

fn place<W: Write>(w: &mut W, p: Place) -> io::Result<()> {
    match p {
        Place::Nowhere => Ok(()),
        Place::Column(column) => write!(w, " at column {column}"),
        Place::Cell { .. } => write!(w, " at a cell"),
    }
}

// A refusal's number, and its place where it has one.
pub(crate) fn reason<W: Write>(w: &mut W, why: Refusal) -> io::Result<()> {
    write!(w, "{}", why.number())?;
    place(w, why.place())
}

// The bytes or the units at the front of an output, each after a blank and with so many digits; or the refusal.
pub(crate) fn front<W: Write, T: Copy + Into<u16>>(
    w: &mut W,
    answer: Result<usize, Refusal>,
    out: &[T],
    digits: usize,
) -> io::Result<()> {
    match answer {
        Ok(n) => {
            for x in out.iter().take(n) {
                let unit: u16 = (*x).into();
                write!(w, " {unit:0digits$X}")?;
            }
        }
        Err(why) => reason(w, why)?,
    }
    writeln!(w)
}
