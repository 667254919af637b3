// A column and its maker. Marks are set one after another; a type, or bits, make the column.
ghost use Rattle.std.specs.Prelude.{◌≡◌, Option};
ghost use Rattle.common.specs.Refusals.{answered};
ghost use Rattle.column.specs.Columns.{building, with_localizable, with_nullable, with_primary_key, with_range, finished, bits_column, but_nullable_lem, bitfield_answer};
ghost use Rattle.cell.specs.declared.form.ColumnType.TheVariants as types;

use crate::bits;
use cell::ColumnType;
use common::Refusal;

// The integers that a column allows: the least and the largest.
#[derive(Clone, Copy, Debug, PartialEq, Eq)]
pub struct ValueRange {
    pub min: i32,
    pub max: i32,
}

#[derive(Clone, Copy, Debug, PartialEq, Eq)]
pub struct Column {
    pub coltype: ColumnType,
    pub is_localizable: bool,
    pub is_nullable: bool,
    pub is_primary_key: bool,
    // None where it allows any.
    pub value_range: Option<ValueRange>,
}

#[derive(Clone, Copy, Debug, PartialEq, Eq)]
pub struct ColumnBuilder {
    pub is_localizable: bool,
    pub is_nullable: bool,
    pub is_primary_key: bool,
    // None where it allows any.
    pub value_range: Option<ValueRange>,
}

impl ColumnBuilder {
    pub fn localizable(self) -> Self
        ensures { result ≡ with_localizable self }
    {
        ColumnBuilder {
            is_localizable: true,
            ..self
        }
    }

    pub fn nullable(self) -> Self
        ensures { result ≡ with_nullable self }
    {
        ColumnBuilder {
            is_nullable: true,
            ..self
        }
    }

    pub fn primary_key(self) -> Self
        ensures { result ≡ with_primary_key self }
    {
        ColumnBuilder {
            is_primary_key: true,
            ..self
        }
    }

    pub fn range(self, min: i32, max: i32) -> Self
        ensures { result ≡ with_range self min max }
    {
        ColumnBuilder {
            value_range: Some(ValueRange { min, max }),
            ..self
        }
    }

    pub fn int16(self) -> Column
        ensures { result ≡ finished self types.Int16 }
    {
        self.with_type(ColumnType::Int16)
    }

    pub fn int32(self) -> Column
        ensures { result ≡ finished self types.Int32 }
    {
        self.with_type(ColumnType::Int32)
    }

    pub fn string(self, max_len: u32) -> Column
        ensures { result ≡ finished self (types.Str max_len) }
    {
        self.with_type(ColumnType::Str(max_len))
    }

    pub fn binary(self) -> Column
        ensures { result ≡ finished self types.Binary }
    {
        self.with_type(ColumnType::Binary)
    }

    fn with_type(self, coltype: ColumnType) -> Column
        ensures { result ≡ finished self coltype }
    {
        Column {
            coltype,
            is_localizable: self.is_localizable,
            is_nullable: self.is_nullable,
            is_primary_key: self.is_primary_key,
            value_range: self.value_range,
        }
    }

    // The type and the marks are read from the bits; the range, and a nullable mark that was made, stay.
    pub fn with_bitfield(self, type_bits: i32) -> Result<Column, Refusal>
        ensures { answered result ≡ bits_column self 0 type_bits }
    {
        let Some(coltype) = bits::type_of(type_bits) else {
            return Err(Refusal::IntegerSize { column: 0 });
        };
        let nullable = (type_bits & bits::NULLABLE_BIT) != 0;
        Ok(Column {
            coltype,
            is_localizable: (type_bits & bits::LOCALIZABLE_BIT) != 0,
            is_nullable: self.is_nullable | nullable,
            is_primary_key: (type_bits & bits::PRIMARY_KEY_BIT) != 0,
            value_range: self.value_range,
        })
    }
}

impl Column {
    pub fn build() -> ColumnBuilder
        ensures { result ≡ building }
    {
        ColumnBuilder {
            is_localizable: false,
            is_nullable: false,
            is_primary_key: false,
            value_range: None,
        }
    }

    pub fn but_nullable(self) -> Self
        ensures { result ≡ but_nullable_lem self }
    {
        Column {
            is_nullable: true,
            ..self
        }
    }

    // The type's bits, with the marks set by masks.
    pub fn bitfield(self) -> Result<i32, Refusal>
        ensures { answered result ≡ bitfield_answer self }
    {
        if bits::too_long(self.coltype) {
            return Err(Refusal::StringMaximum { column: 0 });
        }
        let base = bits::type_bits(self.coltype);
        let loc = bits::marked(base, bits::LOCALIZABLE_BIT as u32, self.is_localizable);
        let nul = bits::marked(loc, bits::NULLABLE_BIT as u32, self.is_nullable);
        let all = bits::marked(nul, bits::PRIMARY_KEY_BIT as u32, self.is_primary_key);
        Ok(all as i32)
    }
}
