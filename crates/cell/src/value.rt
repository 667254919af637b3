// What a cell of a table holds: `ValueRef` on reading, `Value` with its text beside it, and a cell as it is handed over for writing.
ghost use Rattle.std.specs.Prelude.{◌≡◌};
ghost use Rattle.cell.specs.Kinds.{ref_kind, ref_number};
ghost use Rattle.cell.specs.Handed.{cell_of};

use common::StringRef;

#[derive(Clone, Copy, Debug, PartialEq, Eq)]
pub enum ValueRef {
    Null,
    Int(i32),
    Str(StringRef),
    Binary,
}

// A value whose text, where it is one, stands beside it.
#[derive(Clone, Copy, Debug, PartialEq, Eq)]
pub enum Value {
    Null,
    Int(i32),
    Str,
    Binary,
}

// A cell handed over for writing. Its number was not looked at, and its kind may be unknown.
#[derive(Clone, Copy, Debug, PartialEq, Eq)]
pub enum Cell {
    Null,
    Int(i32),
    Str(i32),
    Binary,
    Unknown,
}

impl ValueRef {
    pub fn kind(self) -> u8
        ensures { result ≡ ref_kind self }
    {
        match self {
            ValueRef::Null => 0,
            ValueRef::Int(_) => 1,
            ValueRef::Str(_) => 2,
            ValueRef::Binary => 3,
        }
    }

    pub fn number(self) -> i32
        ensures { result ≡ ref_number self }
    {
        match self {
            ValueRef::Int(n) => n,
            ValueRef::Str(s) => s.0,
            ValueRef::Null | ValueRef::Binary => 0,
        }
    }
}

impl Cell {
    pub fn new(kind: u8, number: i32) -> Cell
        ensures { result ≡ cell_of kind number }
    {
        match kind {
            0 => Cell::Null,
            1 => Cell::Int(number),
            2 => Cell::Str(number),
            3 => Cell::Binary,
            _ => Cell::Unknown,
        }
    }
}
