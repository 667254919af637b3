// Commands on values: what the pool has for a text, and what it shows of a reference.
#![tactic(auto)]

ghost use Rattle.std.specs.Prelude.{◌≡◌, IfOk};
ghost use Rattle.stringpool.specs.Pool.{SameRooms};

use cell::{Value, ValueRef};
use commands::lists::cell_at;
use commands::values::{reference_of, value_of};
use commands::words::{Words, front};
use commands::{kept, numbers, places, shown};
use common::Refusal;
use pool_commands::pooled;
use pool_values::Created;
use room_commands::Desk;
use std::io;
use std::io::Write;
use stringpool::{Rooms, RoomsMut, StringPool};

// The answer to a kind that there is not: 16, after 22 and 24.
fn unknown<W: Write>(w: &mut W, pool: StringPool, rooms: Rooms<'_, '_>) -> io::Result<()> {
    match pool_values::to_value(ValueRef::Null, pool, rooms) {
        Ok(_) => shown::say(w, b"error 16"),
        Err(why) => shown::refused(w, why),
    }
}

// A value is created by `make`, whose text is taken by a choice. It is lent the rooms anew, so whatever it does they stay these borrows.
fn created<
    W: Write,
    F: FnOnce(Value, &[u8], StringPool, &mut RoomsMut<'_>) -> Result<Created, Refusal>,
>(w: &mut W, words: Words<'_>, desk: Desk, rooms: &mut RoomsMut<'_>, make: F) -> io::Result<Desk>
    requires { F.IsAlwaysCallable make }
    ensures same { SameRooms rooms.old rooms.new }
    ensures kept { IfOk result (λ d. (d.lengths ≡ desk.lengths) × (d.counts ≡ desk.counts) × (d.text ≡ desk.text) × (d.places ≡ desk.places) × (d.left ≡ desk.left) × (d.width ≡ desk.width)) }
{
    let Some(value) = value_of(cell_at(words)) else {
        unknown(w, desk.pool, rooms.view())?;
        return Ok(desk);
    };
    let mut text = [0u8; 70_016];
    let n = words.after().bytes_in(&mut text);
    let mut lent = RoomsMut {
        lengths: &mut *rooms.lengths,
        counts: &mut *rooms.counts,
        text: &mut *rooms.text,
    };
    match make(value, front(&text, n), desk.pool, &mut lent) {
        Ok(made) => {
            shown::say(w, b"ok ")?;
            shown::cell(w, made.value.into())?;
            Ok(desk.with_pool(made.pool))
        }
        Err(why) => {
            shown::refused(w, why)?;
            Ok(desk)
        }
    }
}

// `create VALUE`: a text is taken by the first entry that is free or equal, as the crate chooses.
pub fn create<W: Write>(
    w: &mut W,
    words: Words<'_>,
    desk: Desk,
    rooms: &mut RoomsMut<'_>,
) -> io::Result<Desk>
    ensures same { SameRooms rooms.old rooms.new }
    ensures kept { IfOk result (λ d. (d.lengths ≡ desk.lengths) × (d.counts ≡ desk.counts) × (d.text ≡ desk.text) × (d.places ≡ desk.places) × (d.left ≡ desk.left) × (d.width ≡ desk.width)) }
{
    created(w, words, desk, rooms, pool_values::create_first)
}

// `create-default VALUE`
pub fn create_default<W: Write>(
    w: &mut W,
    words: Words<'_>,
    desk: Desk,
    rooms: &mut RoomsMut<'_>,
) -> io::Result<Desk>
    ensures same { SameRooms rooms.old rooms.new }
    ensures kept { IfOk result (λ d. (d.lengths ≡ desk.lengths) × (d.counts ≡ desk.counts) × (d.text ≡ desk.text) × (d.places ≡ desk.places) × (d.left ≡ desk.left) × (d.width ≡ desk.width)) }
{
    created(w, words, desk, rooms, pool_values::create)
}

// `remove CELL`
pub fn remove<W: Write>(
    w: &mut W,
    words: Words<'_>,
    desk: Desk,
    rooms: &mut RoomsMut<'_>,
) -> io::Result<Desk>
    ensures same { SameRooms rooms.old rooms.new }
{
    let Some(reference) = reference_of(cell_at(words)) else {
        unknown(w, desk.pool, rooms.view())?;
        return Ok(desk);
    };
    pooled(w, pool_values::remove(reference, desk.pool, rooms), desk)
}

// A text that was found, by way of an output: `write` writes it.
fn found<W: Write, F: FnOnce(&mut W, &[u8]) -> io::Result<()>>(
    w: &mut W,
    text: &[u8],
    desk: Desk,
    out: &mut [u8],
    write: F,
) -> io::Result<Desk>
    requires { F.IsAlwaysCallable write }
    ensures { IfOk result (λ d. (d.pool ≡ desk.pool) × (d.lengths ≡ desk.lengths) × (d.counts ≡ desk.counts) × (d.text ≡ desk.text) × (d.places ≡ desk.places)) }
{
    let n = places::of(out, desk.output(text.len()));
    kept::fill(&mut out[..n]);
    if n < text.len() {
        shown::refused(w, Refusal::OutputRoom)?;
    } else {
        kept::list(text, out);
        shown::say(w, b"ok ")?;
        write(w, text)?;
    }
    Ok(desk.leaves(n, 1))
}

// `show REF`
pub fn show<W: Write>(
    w: &mut W,
    words: Words<'_>,
    desk: Desk,
    rooms: Rooms<'_, '_>,
    out: &mut [u8],
) -> io::Result<Desk>
    ensures { IfOk result (λ d. (d.pool ≡ desk.pool) × (d.lengths ≡ desk.lengths) × (d.counts ≡ desk.counts) × (d.text ≡ desk.text) × (d.places ≡ desk.places)) }
{
    let number = words.signed();
    match desk.pool.get_refusal(rooms, number) {
        Ok(()) => found(w, desk.pool.get(rooms, number), desk, out, shown::bytes),
        Err(why) => {
            shown::refused(w, why)?;
            // The output that the refused call left.
            let n = places::of(out, desk.output(0));
            kept::fill(&mut out[..n]);
            Ok(desk.leaves(n, 1))
        }
    }
}

// A value that is no text leaves the last output as it was.
fn plain<W: Write>(w: &mut W, value: Value) -> io::Result<()> {
    match value {
        Value::Null => shown::say(w, b"ok n"),
        Value::Int(number) => {
            shown::say(w, b"ok i")?;
            numbers::show(w, number)
        }
        Value::Str => shown::say(w, b"ok t"),
        Value::Binary => shown::say(w, b"ok b"),
    }
}

// `value CELL`
pub fn value<W: Write>(
    w: &mut W,
    words: Words<'_>,
    desk: Desk,
    rooms: Rooms<'_, '_>,
    out: &mut [u8],
) -> io::Result<Desk>
    ensures { IfOk result (λ d. (d.pool ≡ desk.pool) × (d.lengths ≡ desk.lengths) × (d.counts ≡ desk.counts) × (d.text ≡ desk.text) × (d.places ≡ desk.places)) }
{
    let Some(reference) = reference_of(cell_at(words)) else {
        unknown(w, desk.pool, rooms)?;
        return Ok(desk);
    };
    match pool_values::to_value(reference, desk.pool, rooms) {
        Ok(Value::Str) => {
            let text = pool_values::to_text(reference, desk.pool, rooms);
            found(w, text, desk, out, shown::text)
        }
        Ok(value) => {
            plain(w, value)?;
            Ok(desk)
        }
        Err(why) => {
            shown::refused(w, why)?;
            Ok(desk)
        }
    }
}
