// Commands on columns, and columns as words of the command language.
ghost use Rattle.std.specs.Prelude.{◌≡◌, IfOk};

use cell::Value;
use column::{Column, ColumnBuilder, ColumnType};
use commands::lists::cell_at;
use commands::shown;
use commands::values::value_of;
use commands::words::{End, Words, front};
use common::Refusal;
use std::io;
use std::io::Write;

// 1 nullable, 2 localizable, 4 primary key, added up.
fn marked(marks: u8) -> ColumnBuilder {
    ColumnBuilder {
        is_localizable: marks & 2 != 0,
        is_nullable: marks & 1 != 0,
        is_primary_key: marks & 4 != 0,
        value_range: None,
    }
}

// Whether a type is handed over by a number that no type has: `xNUM`.
fn is_unknown(words: Words<'_>) -> bool {
    words.byte() == b'x' && words.after().count() > 3
}

// A type by its number; one that there is not is a Str beyond its maximum, as C hands it over.
fn handed(number: u32, being_made: ColumnBuilder) -> Column {
    match number {
        0 => being_made.int16(),
        1 => being_made.int32(),
        2 => being_made.string(0),
        3 => being_made.binary(),
        _ => being_made.string(256),
    }
}

// The column of bits, `@BITS`, or of a type: `i2`, `i4`, `sMAX`, `b`, `xNUM`.
pub(crate) fn column_at(words: Words<'_>, being_made: ColumnBuilder) -> Result<Column, Refusal> {
    let rest = words.after();
    match words.byte() {
        b'@' => being_made.with_bitfield(rest.signed()),
        b's' => Ok(being_made.string(rest.count())),
        b'b' => Ok(being_made.binary()),
        b'x' => Ok(handed(rest.count(), being_made)),
        _ if rest.byte() == b'2' => Ok(being_made.int16()),
        _ => Ok(being_made.int32()),
    }
}

fn type_out<W: Write>(w: &mut W, coltype: ColumnType) -> io::Result<()> {
    match coltype {
        ColumnType::Int16 => write!(w, "i2"),
        ColumnType::Int32 => write!(w, "i4"),
        ColumnType::Str(max) => write!(w, "s{max}"),
        ColumnType::Binary => write!(w, "b"),
    }
}

// The column, its marks added up, and its written bits.
fn described<W: Write>(w: &mut W, column: Column, bits: i32) -> io::Result<()> {
    let nullable = u8::from(column.is_nullable);
    let localizable = u8::from(column.is_localizable);
    let key = u8::from(column.is_primary_key);
    let marks = nullable + 2 * localizable + 4 * key;
    shown::say(w, b"ok ")?;
    type_out(w, column.coltype)?;
    write!(w, " {marks} {bits}")
}

// The number of a refusal of the column here: 16 in place of 19 where its type is unknown.
pub(crate) fn refusal(why: Refusal, words: Words<'_>) -> u32 {
    match why.number() {
        19 if is_unknown(words) => 16,
        number => number,
    }
}

// A column by itself has no place in the command language.
fn alone<W: Write>(w: &mut W, why: Refusal, words: Words<'_>) -> io::Result<()>
    ensures { IfOk result (λ u. u ≡ tt) }
{
    let number = refusal(why, words);
    write!(w, "error {number}")
}

// The column of `SPEC MARKS`, and its bits.
fn column_of(words: Words<'_>) -> Result<(Column, i32), Refusal> {
    let column = column_at(words, marked(words.next().byte()))?;
    Ok((column, column.bitfield()?))
}

// `col SPEC MARKS`
pub fn made<W: Write>(w: &mut W, words: Words<'_>) -> io::Result<()>
    ensures { IfOk result (λ u. u ≡ tt) }
{
    match column_of(words) {
        Ok((column, bits)) => described(w, column, bits),
        Err(why) => alone(w, why, words),
    }
}

// A range, `MIN,MAX`, or `-` for none.
fn ranged(words: Words<'_>, being_made: ColumnBuilder) -> ColumnBuilder {
    if words.is_none() {
        return being_made;
    }
    being_made.range(words.signed(), words.end(End::Item).after().signed())
}

// Whether the column of `SPEC MARKS RANGE VALUE` takes a value, the text of the last word beside it.
fn validity(words: Words<'_>, value: Value) -> Result<bool, Refusal> {
    let marks = words.next();
    let range = marks.next();
    let column = column_at(words, ranged(range, marked(marks.byte())))?;
    let mut text = [0u8; 140_000];
    let n = range.next().after().bytes_in(&mut text);
    column.is_valid_value(value, front(&text, n))
}

// `check SPEC MARKS RANGE VALUE`. A kind that there is not is judged as Binary, and refused after the column.
pub fn checked<W: Write>(w: &mut W, words: Words<'_>) -> io::Result<()>
    ensures { IfOk result (λ u. u ≡ tt) }
{
    let value = value_of(cell_at(words.next().next().next()));
    match validity(words, value.unwrap_or(Value::Binary)) {
        Ok(valid) if value.is_some() => {
            shown::say(w, b"ok ")?;
            shown::flag(w, valid)
        }
        Ok(_) => shown::say(w, b"error 16"),
        Err(why) => alone(w, why, words),
    }
}
