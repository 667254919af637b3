// Columns, and the answers of the calls on them.
ghost use Rattle.std.specs.Prelude.{◌≡◌};
ghost use Rattle.common.specs.Answers as places;
ghost use Rattle.common.specs.Refusals.{answered};
ghost use Rattle.c_types.specs.Answers.{told_lem};
ghost use Rattle.c_types.specs.Columns.{coltype_in, range_in_lem, builder_in_lem, column_from, on_column, type_number_lem, type_maximum_lem, parts_of, builder_out_lem, column_told};
ghost use Rattle.c_types.specs.Unknown.{on_kind};

use crate::answers::{ColumnAnswer, ColumnParts, Refused, halves, known, told_of};
use column::{Column, ColumnBuilder, ColumnType, ValueRange};
use common::sizes::MAX_STRING;
use common::{Place, Refusal};

// An unknown type is a Str beyond its maximum, a bad column to every call.
fn type_in(parts: ColumnParts) -> ColumnType
    ensures { result ≡ coltype_in parts }
{
    match parts.coltype {
        0 => ColumnType::Int16,
        1 => ColumnType::Int32,
        2 => ColumnType::Str(parts.max_len),
        3 => ColumnType::Binary,
        _ => ColumnType::Str(MAX_STRING + 1),
    }
}

fn range_in(parts: ColumnParts) -> Option<ValueRange>
    ensures { result ≡ range_in_lem parts }
{
    parts.has_range.then_some(ValueRange {
        min: parts.min,
        max: parts.max,
    })
}

impl From<ColumnParts> for ColumnBuilder {
    ghost from_gives = { λ parts b. b ≡ builder_in_lem parts };

    fn from(parts: ColumnParts) -> ColumnBuilder {
        ColumnBuilder {
            is_localizable: parts.is_localizable,
            is_nullable: parts.is_nullable,
            is_primary_key: parts.is_primary_key,
            value_range: range_in(parts),
        }
    }
}

impl From<ColumnParts> for Column {
    ghost from_gives = { λ parts x. x ≡ column_from parts };

    fn from(parts: ColumnParts) -> Column {
        Column {
            coltype: type_in(parts),
            is_localizable: parts.is_localizable,
            is_nullable: parts.is_nullable,
            is_primary_key: parts.is_primary_key,
            value_range: range_in(parts),
        }
    }
}

fn type_number(coltype: ColumnType) -> u32
    ensures { result ≡ type_number_lem coltype }
{
    match coltype {
        ColumnType::Int16 => 0,
        ColumnType::Int32 => 1,
        ColumnType::Str(_) => 2,
        ColumnType::Binary => 3,
    }
}

fn type_maximum(coltype: ColumnType) -> u32
    ensures { result ≡ type_maximum_lem coltype }
{
    match coltype {
        ColumnType::Str(max) => max,
        _ => 0,
    }
}

impl From<Column> for ColumnParts {
    ghost from_gives = { λ x parts. parts ≡ parts_of x };

    fn from(column: Column) -> ColumnParts {
        // Its ends are 0 where no range is given.
        let range = column.value_range.unwrap_or(ValueRange { min: 0, max: 0 });
        ColumnParts {
            coltype: type_number(column.coltype),
            max_len: type_maximum(column.coltype),
            is_localizable: column.is_localizable,
            is_nullable: column.is_nullable,
            is_primary_key: column.is_primary_key,
            has_range: column.value_range.is_some(),
            min: range.min,
            max: range.max,
        }
    }
}

// A builder as C has it: the column of its marks and range, whose type does not count.
impl From<ColumnBuilder> for ColumnParts {
    ghost from_gives = { λ b parts. parts ≡ builder_out_lem b };

    fn from(builder: ColumnBuilder) -> ColumnParts {
        ColumnParts::from(builder.int16())
    }
}

impl From<Result<Column, Refused>> for ColumnAnswer {
    ghost from_gives = { λ a c. c ≡ column_told a };

    fn from(answer: Result<Column, Refused>) -> ColumnAnswer {
        let (refused, column) = halves(answer, Column::build().int16());
        ColumnAnswer {
            refused,
            column: column.into(),
        }
    }
}

// What a call on this column answers: a refusal at a column is 16 where its type is unknown.
pub fn on_column<T>(column: ColumnParts, answer: Result<T, Refusal>) -> Result<T, Refused>
    ensures { result ≡ told_lem (on_column column (answered answer)) }
{
    answer.map_err(|why| told_of(why, column.coltype))
}

// Whether a value of this kind suits its column.
pub fn suits(column: ColumnParts, kind: u8, valid: Result<bool, Refusal>) -> Result<bool, Refused>
    ensures { result ≡ told_lem (on_kind (places.column 0) kind (on_column column (answered valid))) }
{
    let suits = on_column(column, valid)?;
    known(kind, Place::Column(0))?;
    Ok(suits)
}
