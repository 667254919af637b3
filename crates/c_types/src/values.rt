// Values, and the answers of the calls that hold one.
ghost use Rattle.std.specs.Prelude.{◌≡◌};
ghost use Rattle.pool_values.specs.Pooled.{created_of, shown_of};
ghost use Rattle.c_types.specs.Answers.{told_as};
ghost use Rattle.c_types.specs.Tables.{cell_told};
ghost use Rattle.c_types.specs.Values.{value_in_lem, plain_in_lem, created_told};

use crate::answers::{CellAnswer, CreateAnswer, Refused, halves};
use crate::pools::NO_POOL;
use cell::{Value, ValueRef};
use pool_values::Created;
use stringpool::StringRef;

// A value of an unknown kind is judged as a Binary is, and refused where that would not be: by `of_kind`, on the way out.
pub fn value_in(kind: u8, number: i32) -> ValueRef
    ensures { result ≡ value_in_lem kind number }
{
    match kind {
        0 => ValueRef::Null,
        1 => ValueRef::Int(number),
        2 => ValueRef::Str(StringRef(number)),
        _ => ValueRef::Binary,
    }
}

// A value whose text stands beside it.
pub fn plain_in(kind: u8, number: i32) -> Value
    ensures { result ≡ plain_in_lem kind number }
{
    match kind {
        0 => Value::Null,
        1 => Value::Int(number),
        2 => Value::Str,
        _ => Value::Binary,
    }
}

impl From<Result<Created, Refused>> for CreateAnswer {
    ghost from_gives = { λ a c. c ≡ created_told (told_as created_of a) };

    fn from(answer: Result<Created, Refused>) -> CreateAnswer {
        let nothing = Created {
            value: ValueRef::Null,
            pool: NO_POOL,
        };
        let (refused, created) = halves(answer, nothing);
        CreateAnswer {
            refused,
            pool: created.pool,
            kind: created.value.kind(),
            number: created.value.number(),
        }
    }
}

// A value's kind, and its number, 0 for a text, which stands beside it.
impl From<Result<Value, Refused>> for CellAnswer {
    ghost from_gives = { λ a c. c ≡ cell_told (told_as shown_of a) };

    fn from(answer: Result<Value, Refused>) -> CellAnswer {
        let (refused, value) = halves(answer, Value::Null);
        let (kind, number) = match value {
            Value::Null => (0, 0),
            Value::Int(number) => (1, number),
            Value::Str => (2, 0),
            Value::Binary => (3, 0),
        };
        CellAnswer {
            refused,
            kind,
            number,
        }
    }
}
