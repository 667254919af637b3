// Document 01's proved table, run through the public calls. A line says what was handed in and what came of it; the lines are the
// comments of crates/cases/specs/Cases.antt, and .ci/trace compares them.
#![tactic(auto)]

mod cells;
mod names;
mod pools;
mod said;

use std::io;

fn main(rt: HostRuntime) -> io::Result<()> {
    let mut w = io::writer(&rt);
    names::cases(&mut w)?;
    cells::cases(&mut w)?;
    pools::cases(&mut w)?;
    cells::case_m(&mut w)
}
