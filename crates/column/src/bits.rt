// A column's type and marks in its bits, read and set by masks.
ghost use Rattle.std.specs.Prelude.{◌≡◌};
ghost use Rattle.std.specs.Int.Bits.{bit_or};
ghost use Rattle.common.specs.Choice.{when◌then◌else◌};
ghost use Rattle.column.specs.Bits.{bits_of, type_from, type_bits_lem};
ghost use Rattle.column.specs.inner.Bits.{read_as, too_long_lem, MaximumFits};

use cell::ColumnType;

const FIELD_SIZE_MASK: i32 = 0xff;

pub(crate) const LOCALIZABLE_BIT: i32 = 0x200;

const STRING_BIT: i32 = 0x800;

pub(crate) const NULLABLE_BIT: i32 = 0x1000;

pub(crate) const PRIMARY_KEY_BIT: i32 = 0x2000;

const VALID_BIT: i32 = 0x100;

const NONBINARY_BIT: i32 = 0x400;

const INT16_SIZE: u32 = 2;

const INT32_SIZE: u32 = 4;

// The type that bits name, none where the size of an integer column is none. The first test that fits decides.
pub(crate) fn type_of(bits: i32) -> Option<ColumnType>
    ensures { read_as result ≡ type_from 0 (bits_of bits) }
{
    let size = (bits & FIELD_SIZE_MASK) as u32;
    if bits & !NULLABLE_BIT == STRING_BIT | VALID_BIT {
        return Some(ColumnType::Binary);
    }
    if bits & STRING_BIT != 0 {
        return Some(ColumnType::Str(size));
    }
    match size {
        INT32_SIZE if bits & NONBINARY_BIT == 0 => Some(ColumnType::Int32),
        INT32_SIZE => Some(ColumnType::Binary),
        1 | INT16_SIZE => Some(ColumnType::Int16),
        _ => None,
    }
}

// A maximum that the low byte of the bits cannot hold.
pub(crate) fn too_long(coltype: ColumnType) -> bool
    ensures { result ≡ too_long_lem coltype }
{
    matches!(coltype, ColumnType::Str(max) if max > common::sizes::MAX_STRING)
}

// The bits of a type with no marks.
pub(crate) fn type_bits(coltype: ColumnType) -> u32
    requires { MaximumFits coltype }
    ensures { result ≡ type_bits_lem coltype }
{
    match coltype {
        ColumnType::Int16 => (VALID_BIT | NONBINARY_BIT) as u32 | INT16_SIZE,
        ColumnType::Int32 => VALID_BIT as u32 | INT32_SIZE,
        ColumnType::Str(max) => max | (STRING_BIT | VALID_BIT | NONBINARY_BIT) as u32,
        ColumnType::Binary => (STRING_BIT | VALID_BIT) as u32,
    }
}

// The bits with a mark set by its mask, or as they were.
pub(crate) fn marked(bits: u32, mark: u32, on: bool) -> u32
    ensures { result ≡ (when on then bit_or bits mark else bits) }
{
    if on { bits | mark } else { bits }
}
