// Columns: the marks and the type of one being made, its bits, and the check of a value.
ghost use Rattle.std.specs.Prelude.{◌≡◌};
ghost use Rattle.column.specs.Columns.{building, with_localizable, with_nullable, with_primary_key, with_range, finished, bits_column, bitfield_answer};
ghost use Rattle.cell.specs.declared.form.ColumnType.TheVariants as types;
ghost use Rattle.c_types.specs.Answers.{flag_in};
ghost use Rattle.c_types.specs.Pools.{reference_in};
ghost use Rattle.c_types.specs.Columns.{builder_in_lem, builder_out_lem, column_from, on_column, parts_of, column_in_lem};
ghost use Rattle.c_types.specs.Values.{check_by};

use c_types::answers::{ColumnAnswer, ColumnParts, Flag, Reference, told};
use c_types::columns::{on_column, suits};
use c_types::values::plain_in;
use column::{Column, ColumnBuilder};

#[unsafe(no_mangle)]
pub extern "C" fn strandroost_column_build() -> ColumnParts
    ensures { result ≡ builder_out_lem building }
{
    ColumnParts::from(Column::build())
}

#[unsafe(no_mangle)]
pub extern "C" fn strandroost_column_localizable(builder: ColumnParts) -> ColumnParts
    ensures { result ≡ builder_out_lem (with_localizable (builder_in_lem builder)) }
{
    let being_made = ColumnBuilder::from(builder);
    ColumnParts::from(being_made.localizable())
}

#[unsafe(no_mangle)]
pub extern "C" fn strandroost_column_nullable(builder: ColumnParts) -> ColumnParts
    ensures { result ≡ builder_out_lem (with_nullable (builder_in_lem builder)) }
{
    let being_made = ColumnBuilder::from(builder);
    ColumnParts::from(being_made.nullable())
}

#[unsafe(no_mangle)]
pub extern "C" fn strandroost_column_primary_key(builder: ColumnParts) -> ColumnParts
    ensures { result ≡ builder_out_lem (with_primary_key (builder_in_lem builder)) }
{
    let being_made = ColumnBuilder::from(builder);
    ColumnParts::from(being_made.primary_key())
}

#[unsafe(no_mangle)]
pub extern "C" fn strandroost_column_range(builder: ColumnParts, min: i32, max: i32) -> ColumnParts
    ensures { result ≡ builder_out_lem (with_range (builder_in_lem builder) min max) }
{
    let being_made = ColumnBuilder::from(builder);
    ColumnParts::from(being_made.range(min, max))
}

#[unsafe(no_mangle)]
pub extern "C" fn strandroost_column_int16(builder: ColumnParts) -> ColumnParts
    ensures { result ≡ parts_of (finished (builder_in_lem builder) types.Int16) }
{
    let being_made = ColumnBuilder::from(builder);
    ColumnParts::from(being_made.int16())
}

#[unsafe(no_mangle)]
pub extern "C" fn strandroost_column_int32(builder: ColumnParts) -> ColumnParts
    ensures { result ≡ parts_of (finished (builder_in_lem builder) types.Int32) }
{
    let being_made = ColumnBuilder::from(builder);
    ColumnParts::from(being_made.int32())
}

#[unsafe(no_mangle)]
pub extern "C" fn strandroost_column_string(builder: ColumnParts, max_len: u32) -> ColumnParts
    ensures { result ≡ parts_of (finished (builder_in_lem builder) (types.Str max_len)) }
{
    let being_made = ColumnBuilder::from(builder);
    ColumnParts::from(being_made.string(max_len))
}

#[unsafe(no_mangle)]
pub extern "C" fn strandroost_column_binary(builder: ColumnParts) -> ColumnParts
    ensures { result ≡ parts_of (finished (builder_in_lem builder) types.Binary) }
{
    let being_made = ColumnBuilder::from(builder);
    ColumnParts::from(being_made.binary())
}

#[unsafe(no_mangle)]
pub extern "C" fn strandroost_column_from_bitfield(builder: ColumnParts, bits: i32) -> ColumnAnswer
    ensures { result ≡ column_in_lem (bits_column (builder_in_lem builder) 0 bits) }
{
    let being_made = ColumnBuilder::from(builder);
    ColumnAnswer::from(told(being_made.with_bitfield(bits)))
}

#[unsafe(no_mangle)]
pub extern "C" fn strandroost_column_bitfield(column: ColumnParts) -> Reference
    ensures { result ≡ reference_in (on_column column (bitfield_answer (column_from column))) }
{
    let made = Column::from(column);
    Reference::from(on_column(column, made.bitfield()))
}

#[unsafe(no_mangle)]
pub extern "C" fn strandroost_is_valid_value(
    column: ColumnParts,
    kind: u8,
    number: i32,
    text: &[u8],
) -> Flag
    ensures { result ≡ flag_in (check_by column kind number text.now) }
{
    let made = Column::from(column);
    let value = plain_in(kind, number);
    Flag::from(suits(column, kind, made.is_valid_value(value, text)))
}
