// Cases a to d.
use crate::said;
use cases::Units;
use std::io;
use std::io::Write;

fn stored<W: Write>(w: &mut W, label: &str, asked: Units) -> io::Result<()> {
    write!(w, "{label}")?;
    said::front(w, asked.answer, &asked.out, 4)
}

pub(crate) fn cases<W: Write>(w: &mut W) -> io::Result<()> {
    stored(w, "a \"Ab\" table:", cases::case_a())?;
    stored(w, "b \"a-b\" plain:", cases::case_b())?;
    stored(w, "c \"__\":", cases::case_c())?;
    stored(w, "d \"\" table:", cases::case_d())
}
