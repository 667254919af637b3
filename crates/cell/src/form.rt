// How the cells of a column are stored: its type and the width of references, without maximum and marks.
ghost use Rattle.std.specs.Prelude.{◌≡◌, ◌+◌, ◌<◌, ◌≤◌, ◌^◌};
ghost use Rattle.common.specs.Answers.{cell as place_of};
ghost use Rattle.little_endian.specs.Numbers.{number_at};
ghost use Rattle.common.specs.Refusals.{answered};
ghost use Rattle.cell.specs.Kinds.{cell_as};
ghost use Rattle.cell.specs.Handed.{handed_kind, handed_number};
ghost use Rattle.cell.specs.Cells.{width, stored, unstored};
ghost use Rattle.cell.specs.Forms.{form_for, type_in, long_in, form_answer};
ghost use Rattle.cell.specs.inner.Signed.{unbiased};
ghost use Rattle.cell.specs.inner.Forms.{integer_stored_lem, reference_stored_lem, binary_stored_lem};

use crate::value::{Cell, ValueRef};
use common::{Refusal, StringRef};

// Half the numbers of 16 and of 32 bits: an integer is stored as its sum with that.
const HALF_16: u32 = 1 << 15;

const HALF_32: u32 = 1 << 31;

const MAX_SHORT: u32 = 65_535;

// What a column stores for Null, and a Binary one for Binary.
const NULL: u32 = 0;

const BINARY: u32 = 1;

#[derive(Clone, Copy, Debug, PartialEq, Eq)]
pub enum ColumnType {
    Int16,
    Int32,
    // With the largest length, 0 for any.
    Str(u32),
    Binary,
}

#[derive(Clone, Copy, Debug, PartialEq, Eq)]
pub enum CellForm {
    Int16,
    Int32,
    ShortRef,
    LongRef,
    Binary,
}

impl ColumnType {
    // The form of the cells of a column of this type, which is the table's column `column`.
    pub fn form(self, column: usize, long_string_refs: bool) -> Result<CellForm, Refusal>
        ensures { answered result ≡ form_answer column self long_string_refs }
    {
        match self {
            ColumnType::Str(max) if max > common::sizes::MAX_STRING => {
                Err(Refusal::StringMaximum { column })
            }
            _ => Ok(self.cell_form(long_string_refs)),
        }
    }

    // The same of a type that was judged.
    pub fn cell_form(self, long_string_refs: bool) -> CellForm
        ensures { result ≡ form_for self long_string_refs }
    {
        match self {
            ColumnType::Int16 => CellForm::Int16,
            ColumnType::Int32 => CellForm::Int32,
            ColumnType::Str(_) if long_string_refs => CellForm::LongRef,
            ColumnType::Str(_) => CellForm::ShortRef,
            ColumnType::Binary => CellForm::Binary,
        }
    }
}

impl CellForm {
    pub fn width(self) -> usize
        ensures { result ≡ width (type_in self) (long_in self) }
    {
        match self {
            CellForm::Int16 | CellForm::ShortRef | CellForm::Binary => 2,
            CellForm::LongRef => 3,
            CellForm::Int32 => 4,
        }
    }

    // Judges the cell that is to stand at a row and a column.
    pub fn stored(self, cell: Cell, row: usize, column: usize) -> Result<u32, Refusal>
        ensures { answered result ≡ stored (type_in self) (long_in self) (place_of row column) (handed_kind cell) (handed_number cell) }
    {
        match self {
            CellForm::Int16 => integer_stored(cell, HALF_16, row, column),
            CellForm::Int32 => integer_stored(cell, HALF_32, row, column),
            CellForm::ShortRef => reference_stored(cell, false, row, column),
            CellForm::LongRef => reference_stored(cell, true, row, column),
            CellForm::Binary => binary_stored(cell, row, column),
        }
    }

    // The value whose bytes start at `at`; bytes past the end count 0.
    pub fn read_value(self, stream: &[u8], at: usize) -> ValueRef
        ensures { cell_as result ≡ unstored (type_in self) (number_at (width (type_in self) (long_in self)) stream.now at) }
    {
        value_of(self, little_endian::read(stream, at, self.width()))
    }
}

fn integer_stored(cell: Cell, half: u32, row: usize, column: usize) -> Result<u32, Refusal>
    requires { half ≤ 2147483648 }
    ensures { answered result ≡ integer_stored_lem half (place_of row column) cell }
{
    if let Cell::Null = cell {
        return Ok(NULL);
    }
    let Cell::Int(n) = cell else {
        return Err(Refusal::CellKind { row, column });
    };
    let number = i64::from(n) + i64::from(half);
    if !(1..2 * i64::from(half)).contains(&number) {
        return Err(Refusal::CellIntegerRange { row, column });
    }
    Ok(number as u32)
}

fn reference_stored(cell: Cell, long: bool, row: usize, column: usize) -> Result<u32, Refusal>
    ensures { answered result ≡ reference_stored_lem long (place_of row column) cell }
{
    if let Cell::Null = cell {
        return Ok(NULL);
    }
    let Cell::Str(n) = cell else {
        return Err(Refusal::CellKind { row, column });
    };
    let Ok(StringRef(number)) = StringRef::new(n) else {
        return Err(Refusal::CellReferenceRange { row, column });
    };
    let number = number.unsigned_abs();
    if !long && number > MAX_SHORT {
        return Err(Refusal::CellReferenceLong { row, column });
    }
    Ok(number)
}

fn binary_stored(cell: Cell, row: usize, column: usize) -> Result<u32, Refusal>
    ensures { answered result ≡ binary_stored_lem (place_of row column) cell }
{
    if matches!(cell, Cell::Null) {
        return Ok(NULL);
    }
    let Cell::Binary = cell else {
        return Err(Refusal::CellKind { row, column });
    };
    Ok(BINARY)
}

// The value of a number that the cells of a form hold.
fn value_of(form: CellForm, number: u32) -> ValueRef
    requires { number < 256 ^ width (type_in form) (long_in form) }
    ensures { cell_as result ≡ unstored (type_in form) number }
{
    if number == NULL {
        return ValueRef::Null;
    }
    match form {
        CellForm::Int16 => ValueRef::Int(less_half(number, HALF_16)),
        CellForm::Int32 => ValueRef::Int(less_half(number, HALF_32)),
        CellForm::ShortRef | CellForm::LongRef => ValueRef::Str(StringRef(number.cast_signed())),
        CellForm::Binary => ValueRef::Binary,
    }
}

// The integer that was stored with half its numbers added.
fn less_half(number: u32, half: u32) -> i32
    requires { (half ≤ 2147483648) × (number < half + half) }
    ensures { result ≡ unbiased half number }
{
    (i64::from(number) - i64::from(half)) as i32
}
