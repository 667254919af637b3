// A cell of the command language as the calls on values take it: nothing where its kind is unknown.
ghost use Rattle.std.specs.Prelude.{◌≡◌, pos, MatchOption};
ghost use Rattle.common.specs.Choice.{when◌then◌else◌, ◌=?◌};
ghost use Rattle.cell.specs.Handed.{handed_kind, handed_number};
ghost use Rattle.cell.specs.Kinds.{ref_kind, ref_number, value_kind, value_number};

use cell::{Cell, Value, ValueRef};
use common::StringRef;

// The text of a Str stands beside it.
pub fn value_of(cell: Cell) -> Option<Value>
    ensures { MatchOption result (handed_kind cell ≡ 4) (λ v. (value_kind v ≡ handed_kind cell) × (value_number v ≡ (when handed_kind cell =? 2 then pos 0 else handed_number cell))) }
{
    match cell {
        Cell::Null => Some(Value::Null),
        Cell::Int(number) => Some(Value::Int(number)),
        Cell::Str(_) => Some(Value::Str),
        Cell::Binary => Some(Value::Binary),
        Cell::Unknown => None,
    }
}

pub fn reference_of(cell: Cell) -> Option<ValueRef>
    ensures { MatchOption result (handed_kind cell ≡ 4) (λ v. (ref_kind v ≡ handed_kind cell) × (ref_number v ≡ handed_number cell)) }
{
    match cell {
        Cell::Null => Some(ValueRef::Null),
        Cell::Int(number) => Some(ValueRef::Int(number)),
        Cell::Str(number) => Some(ValueRef::Str(StringRef(number))),
        Cell::Binary => Some(ValueRef::Binary),
        Cell::Unknown => None,
    }
}
