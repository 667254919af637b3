// Commands on stream names, and on a reference number by itself.
#![tactic(auto)]

ghost use Rattle.std.specs.Prelude.{◌≡◌, ◌≤◌, length, IfOk};

use commands::words::{Words, front, product};
use commands::{kept, numbers, places, shown};
use common::StringRef;
use room_commands::Desk;
use std::io;
use std::io::Write;

// The units of bytes, high byte first: how many there are.
fn units_in(bytes: &[u8], out: &mut [u16]) -> usize
    ensures { result ≤ length out.new }
{
    let n = places::of(out, bytes.len() / 2);
    for (unit, pair) in out.iter_mut().zip(bytes.chunks_exact(2)) {
        *unit = u16::from_be_bytes([pair[0], pair[1]]);
    }
    n
}

// The units of the word here.
fn name_in(words: Words<'_>, out: &mut [u16]) -> usize
    ensures { result ≤ length out.new }
{
    let mut bytes = [0u8; 131_080];
    let n = words.bytes_in(&mut bytes);
    units_in(front(&bytes, n), out)
}

fn one_more(n: usize) -> usize {
    if n < 65_536 { n + 1 } else { n }
}

fn encoded<W: Write>(w: &mut W, name: &[u16], is_table: bool, units: &mut [u16]) -> io::Result<()> {
    match streamname::encode(name, is_table, units) {
        Ok(length) => {
            shown::say(w, b"ok ")?;
            shown::units(w, front(units, length))
        }
        Err(why) => shown::refused(w, why),
    }
}

fn decoded<W: Write>(w: &mut W, stored: &[u16], units: &mut [u16]) -> io::Result<()> {
    match streamname::decode(stored, units) {
        Ok(name) => {
            shown::say(w, b"ok ")?;
            shown::flag(w, name.is_table)?;
            shown::say(w, b" ")?;
            shown::units(w, front(units, name.units))
        }
        Err(why) => shown::refused(w, why),
    }
}

// `enc T UNITS`
pub fn encode<W: Write>(w: &mut W, words: Words<'_>, desk: Desk, out: &mut [u8]) -> io::Result<Desk>
    ensures { IfOk result (λ d. (d.width ≡ 2) × (d.pool ≡ desk.pool) × (d.lengths ≡ desk.lengths) × (d.counts ≡ desk.counts) × (d.text ≡ desk.text) × (d.places ≡ desk.places)) }
{
    let mut name = [0u16; 65_540];
    let mut units = [0xEEEEu16; 131_080];
    let given = name_in(words.next(), &mut name);
    let n = places::of(&name, given);
    let m = places::of(&units, desk.output(one_more(n)));
    encoded(w, &name[..n], words.byte() == b'1', &mut units[..m])?;
    Ok(desk.leaves(kept::list(&units[..m], out), 2))
}

// `dec UNITS`
pub fn decode<W: Write>(w: &mut W, words: Words<'_>, desk: Desk, out: &mut [u8]) -> io::Result<Desk>
    ensures { IfOk result (λ d. (d.width ≡ 2) × (d.pool ≡ desk.pool) × (d.lengths ≡ desk.lengths) × (d.counts ≡ desk.counts) × (d.text ≡ desk.text) × (d.places ≡ desk.places)) }
{
    let mut name = [0u16; 65_540];
    let mut units = [0xEEEEu16; 131_080];
    let given = name_in(words, &mut name);
    let n = places::of(&name, given);
    let m = places::of(&units, desk.output(product(n, 2)));
    decoded(w, &name[..n], &mut units[..m])?;
    Ok(desk.leaves(kept::list(&units[..m], out), 2))
}

// `valid T UNITS`
pub fn is_valid<W: Write>(w: &mut W, words: Words<'_>) -> io::Result<()>
    ensures { IfOk result (λ u. u ≡ tt) }
{
    let mut name = [0u16; 65_540];
    let given = name_in(words.next(), &mut name);
    match streamname::is_valid(front(&name, given), words.byte() == b'1') {
        Ok(valid) => shown::say(w, if valid { b"ok 1" } else { b"ok 0" }),
        Err(why) => shown::refused(w, why),
    }
}

// `ref REF`
pub fn reference<W: Write>(w: &mut W, words: Words<'_>) -> io::Result<()>
    ensures { IfOk result (λ u. u ≡ tt) }
{
    match StringRef::new(words.signed()) {
        Ok(r) => {
            shown::say(w, b"ok ")?;
            numbers::show(w, r.0)
        }
        Err(why) => shown::refused(w, why),
    }
}
