// The check of a value against its column; a text stands beside the value.
ghost use Rattle.std.specs.Prelude.{◌≡◌, Option};
ghost use Rattle.common.specs.Refusals.{answered};
ghost use Rattle.column.specs.Check.{inside, integer_fits, text_suits, suits, check_answer};

use crate::bits;
use crate::column::{Column, ValueRange};
use cell::{ColumnType, Value};
use common::Refusal;
use common::sizes::MAX_BYTES;

impl Column {
    pub fn is_valid_value(self, value: Value, text: &[u8]) -> Result<bool, Refusal>
        ensures { answered result ≡ check_answer self value text.now }
    {
        if text.len() > MAX_BYTES {
            return Err(Refusal::OverSize);
        }
        if bits::too_long(self.coltype) {
            return Err(Refusal::StringMaximum { column: 0 });
        }
        Ok(allows(self, value, text.len()))
    }
}

fn allows(column: Column, value: Value, bytes: usize) -> bool
    ensures { result ≡ suits column value bytes }
{
    match value {
        Value::Null => column.is_nullable,
        Value::Int(n) => in_range(n, column.value_range) && int_fits(column.coltype, n),
        Value::Str => text_fits(column.coltype, bytes),
        Value::Binary => column.coltype == ColumnType::Binary,
    }
}

fn in_range(n: i32, range: Option<ValueRange>) -> bool
    ensures { result ≡ inside range n }
{
    match range {
        Some(ValueRange { min, max }) => (min..=max).contains(&n),
        None => true,
    }
}

// Above the smallest integer of the width, which no cell takes, and at most the largest.
fn int_fits(coltype: ColumnType, n: i32) -> bool
    ensures { result ≡ integer_fits coltype n }
{
    match coltype {
        ColumnType::Int16 => (-32_767..=32_767).contains(&n),
        ColumnType::Int32 => n > i32::MIN,
        ColumnType::Str(_) | ColumnType::Binary => false,
    }
}

fn text_fits(coltype: ColumnType, bytes: usize) -> bool
    ensures { result ≡ text_suits coltype bytes }
{
    match coltype {
        ColumnType::Str(0) => true,
        ColumnType::Str(max) => bytes <= max as usize,
        _ => false,
    }
}
