// Cases e to j and m: cells, types from bits, and rows.
ghost use Rattle.std.specs.Prelude.{◌≡◌, [], ◌∷◌, pos};
ghost use Rattle.common.specs.Refusals.{answered};
ghost use Rattle.cases.specs.Shown.{written, called};
ghost use Rattle.cases.specs.Cases as cases;

use column::Column;
use common::Refusal;
use table::Table;

// What `write_rows` answers, and its output.
#[derive(Clone, Copy)]
pub struct Bytes {
    pub answer: Result<usize, Refusal>,
    pub out: [u8; 8],
}

// Rows of a table with these bits and short references; where the bits are refused, of one without columns.
fn rows(bits: &[i32], count: usize, kinds: &[u8], numbers: &[i32]) -> Bytes
    ensures { (answered result.answer, result.out)
        ≡ called (written bits.now count (record { kinds = kinds.entry.now; numbers = numbers.now })) }
{
    let mut out = [0u8; 8];
    let no_columns = Table {
        columns: [Column::build().int16(); 64],
        count: 0,
        long_string_refs: false,
    };
    let table = Table::from_bitfields(bits, false).unwrap_or(no_columns);
    let answer = table.write_rows(count, kinds, numbers, &mut out);
    Bytes { answer, out }
}

// An Int16 cell of that number.
fn int16(number: &[i32]) -> Bytes
    ensures { (answered result.answer, result.out)
        ≡ called (written (pos 0x502 ∷ []) 1 (record { kinds = 1 ∷ []; numbers = number.now })) }
{
    let bits = [0x502i32];
    let kinds = [1u8];
    rows(&bits, 1, &kinds, number)
}

pub fn case_e() -> Bytes
    ensures { (answered result.answer, result.out) ≡ called (cases.e).asked }
{
    let number = [1i32];
    int16(&number)
}

pub fn case_f() -> Bytes
    ensures { (answered result.answer, result.out) ≡ called (cases.f).asked }
{
    let number = [-1i32];
    int16(&number)
}

pub fn case_g() -> Bytes
    ensures { (answered result.answer, result.out) ≡ called (cases.g).asked }
{
    let number = [0i32];
    int16(&number)
}

pub fn case_h() -> Result<Column, Refusal>
    ensures { answered result ≡ called (cases.h).asked }
{
    Column::build().with_bitfield(0x2900)
}

pub fn case_i() -> Result<Column, Refusal>
    ensures { answered result ≡ called (cases.i).asked }
{
    Column::build().with_bitfield(0x404)
}

pub fn case_j() -> Result<Column, Refusal>
    ensures { answered result ≡ called (cases.j).asked }
{
    Column::build().with_bitfield(0x503)
}

pub fn case_m() -> Bytes
    ensures { (answered result.answer, result.out) ≡ called (cases.m).asked }
{
    let bits = [0x502i32, 0xD08];
    let kinds = [1u8, 2, 1, 0];
    let numbers = [1i32, 3, -1, 0];
    rows(&bits, 2, &kinds, &numbers)
}
