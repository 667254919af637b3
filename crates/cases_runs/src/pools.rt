// Cases k and l.
use crate::said;
use cases::{Pool, Take};
use std::io;
use std::io::Write;
use stringpool::{Rooms, StringPool};

fn held<W: Write>(w: &mut W, count: u16, text: &[u8]) -> io::Result<()> {
    if count == 0 {
        return write!(w, "free");
    }
    write!(w, "\"")?;
    w.write_all(text)?;
    write!(w, "\"")?;
    match count {
        1 => write!(w, " once"),
        2 => write!(w, " twice"),
        _ => write!(w, " more often"),
    }
}

// The three entries of both cases.
fn entries<W: Write>(w: &mut W, pool: StringPool, rooms: Rooms<'_, '_>) -> io::Result<()> {
    for reference in 1..=3 {
        if reference > 1 {
            write!(w, ", ")?;
        }
        match pool.refcount(rooms, reference) {
            Ok(count) => held(w, count, pool.get(rooms, reference))?,
            Err(why) => said::reason(w, why)?,
        }
    }
    Ok(())
}

fn pool<W: Write>(w: &mut W, label: &str, asked: Pool) -> io::Result<()> {
    let rooms = Rooms {
        lengths: &asked.lengths,
        counts: &asked.counts,
        text: &asked.text,
    };
    write!(w, "{label}")?;
    match asked.answer {
        Ok(pool) => {
            write!(w, " code page {}, ", pool.codepage)?;
            entries(w, pool, rooms)?;
        }
        Err(why) => said::reason(w, why)?,
    }
    writeln!(w)
}

fn reference<W: Write>(w: &mut W, number: i32) -> io::Result<()> {
    match number {
        2 => write!(w, " answers 2, a duplicate: "),
        _ => write!(w, " answers another number: "),
    }
}

fn take<W: Write>(w: &mut W, label: &str, asked: Take) -> io::Result<()> {
    let rooms = Rooms {
        lengths: &asked.lengths,
        counts: &asked.counts,
        text: &asked.text,
    };
    write!(w, "{label}")?;
    match asked.answer {
        Ok(taken) => {
            reference(w, taken.reference.0)?;
            entries(w, taken.pool, rooms)?;
        }
        Err(why) => said::reason(w, why)?,
    }
    writeln!(w)
}

pub(crate) fn cases<W: Write>(w: &mut W) -> io::Result<()> {
    pool(
        w,
        "k Pool E4 04 00 00, 04 00 02 00, 00 00 00 00, 00 00 01 00 00 00 00 00 with data 4E 61 6D 65:",
        cases::case_k(),
    )?;
    take(
        w,
        "l On k, take of \"\" by the first free or equal:",
        cases::case_l(),
    )
}
